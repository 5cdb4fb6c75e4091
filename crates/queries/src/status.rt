// Document 01's standing.
ghost use Rattle.std.specs.Prelude.{◌≡◌};
ghost use Rattle.model.specs.Calls.{standing, status_of};

use layout::head::header_of;
use model::types::{Kind, Process, Running, State, Status};
use refusals::permit::status_permit;

// A call shows what it is and its ticks, and nothing of where it stands: that is no answer yet.
#[tactic(auto, unfolding(model::specs::Calls::standing))]
pub fn standing(p: Process) -> Status
    ensures { result ≡ standing p.call.kind p }
{
    let kind = p.call.kind;
    if kind == Kind::Idle {
        return Ok(None);
    }
    Ok(Some(Running {
        kind,
        start: p.call.start,
        effect: p.effect.tick,
    }))
}

// Idle, or the call that runs. It is asked of the state alone, so that no table has to be at hand.
#[tactic(auto, using(refusals::proofs::Laws::may_tell), unfolding(model::specs::Calls::status_by, model::specs::Calls::status_of))]
pub fn status(s: State, process: u32) -> Status
    ensures { result ≡ status_of s process }
{
    status_permit(&header_of(s), process)?;
    standing(s.process[process as usize])
}
