// What a move leaves, written where it stands: the words of its process, events and counts, and the tally.
#![tactic(auto)]

mod changes;
pub mod leave;
