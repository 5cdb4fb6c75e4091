// A call begun.
ghost use Rattle.std.specs.Prelude.{◌≡◌};
ghost use Rattle.model.specs.Calls.{top_of, begun};

use model::types::{Call, Cursor, Phase, Process, State};

// The top level that a draw gives.
#[tactic(auto, unfolding(model::specs::Calls::top_of))]
pub fn top_of(draw: u16) -> u32
    ensures { result ≡ top_of draw }
{
    draw.trailing_zeros().min(State::TOP)
}

// A process at the start of its walk.
pub fn begin(call: Call) -> Process
    ensures { result ≡ begun call }
{
    let cursor = Cursor {
        phase: Phase::Walk,
        level: State::TOP,
        ..Cursor::default()
    };
    Process {
        call,
        cursor,
        ..Process::idle()
    }
}
