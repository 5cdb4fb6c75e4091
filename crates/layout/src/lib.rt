// The state in words that a caller lends: a fixed layout, a head and eight processes, read and written in place.
#![tactic(auto)]

pub mod head;
pub mod state;
