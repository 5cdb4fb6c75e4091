// Opening and starts of the store by value. None asks anything of its arguments: what is unlawful is refused, and a refusal
// changes nothing. The state by value is what document 01 asks for, and its calls take the two tables apart, with the operands that they name.
// The calls of these names on lent words (lent, lentstart, lentstep) are C's: they test and read no more words than they need.
#![tactic(auto)]

pub mod open;
pub mod start;
