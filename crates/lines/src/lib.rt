// The line of a sheet's output that the outcome of each call prints.
#![tactic(auto)]

pub mod outcome;
