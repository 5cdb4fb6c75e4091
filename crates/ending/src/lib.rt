// What a sheet's bytes ask for at a place: a command to be played, more bytes, nothing, or that the run ends with a refusal.
#![tactic(auto)]

pub mod rest;
pub mod types;
