// One process in twenty-one words: its parts tested, read and written in place.
#![tactic(auto)]

pub mod types;
pub mod words;
