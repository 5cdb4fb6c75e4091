// The refusals of each call, in order, on the state's header.
#![tactic(auto)]

pub mod permit;
