// How a run goes on.
use decoder::types::Command;
use model::types::Refusal;

// What a sheet has at a place. No Result of an Option: each of the four has its own arm in `play_one`, and none is passed up by `?`.
#[derive(Clone, Copy)]
pub enum Rest {
    Next(Command, usize), // a command, and how many bytes it takes
    More, // what more bytes decide
    Over, // nothing
    Ends(Refusal), // what ends the run, with this refusal
}
