// Opening and queries of the store on a state in words that a caller lends; its starts and its step have crates of their own. Twins of the calls
// by value, which C cannot make: a look and a standing read the words that they need, and decode no state.
#![tactic(auto)]

pub mod open;
pub mod query;
