// What the store by value and the store in lent words share: a call begun, what a move leaves of its process and of the tally, and
// what the step answers.
#![tactic(auto)]

pub mod after;
pub mod begin;
pub mod slot;
