// The tally: seven counts, each of one answer. A struct of them is lent by `&mut` to `grow`; every other caller lends seven words to `count`.
#![tactic(auto)]

pub mod count;
pub mod grow;
pub mod types;
