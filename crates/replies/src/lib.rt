// An outcome as a number to return and answer words, for callers that have no enums.
#![tactic(auto)]

pub mod told;
