// The calls that change nothing and read a part of the store: look and status, with document 01's operands.
#![tactic(auto)]

pub mod look;
pub mod status;
