// Starts on lent words: one process and the count of events are written where they stand. As in store, but for C, and without a state that is
// decoded and encoded again.
#![tactic(auto)]

pub mod start;
