// Refusals 10 and 6: what is within the limits. The head of a state and the lengths of the tables lent are all that is read.
#![tactic(auto)]

pub mod lawful;
