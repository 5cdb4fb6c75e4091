// One step of a process.
ghost use Rattle.std.specs.Prelude.{◌≡◌};
ghost use Rattle.model.specs.Calls.{step_of, store_of};
ghost use Rattle.tables.specs.Room.{memory};
ghost use Rattle.storestep.specs.Attempt.{Passed, attempt_of, advanced};
ghost use Rattle.storestep.specs.Attempt.{stepped};

use crate::advance::advance;
use crate::types::Advanced;
use calls::slot::slot;
use layout::head::header_of;
use model::types::{Answered, Counts, Permit, Process, Refusal, State, StepResult};
use refusals::permit::step_permit;

// The step if it is let pass. `events` are those before it. No `Memory` before the permit: that its tables fit holds only
// where the step is let pass.
#[tactic(auto, unfolding(crate::specs::Attempt::attempt_of))]
fn attempt(
    permit: Permit,
    p: Process,
    counts: Counts,
    process: u32,
    events: u32,
    nodes: &mut [u32],
    versions: &mut [u32],
    tally: &mut [u32],
) -> Result<Advanced, Refusal>
    requires { permit ≡ Ok tt → Passed nodes.old versions.old counts tally.old process events }
    ensures { advanced p counts result nodes.new versions.new tally.new
        ≡ attempt_of permit process events p (memory nodes.old versions.old counts) tally.old }
{
    permit?;
    advance(p, counts, process + 1, events + 1, nodes, versions, tally)
}

// The state is put into the result at one place, so that it is copied twice: in and out.
pub fn step(
    mut s: State,
    process: u32,
    nodes: &mut [u32],
    versions: &mut [u32],
    tally: &mut [u32],
) -> StepResult
    ensures { stepped result nodes.new versions.new tally.new
        ≡ step_of (store_of s nodes.old versions.old tally.old) process }
{
    let i = slot(process);
    let p = s.process[i];
    let h = header_of(s);
    let permit = step_permit(&h, p.call.kind, nodes, versions, tally, process);
    let outcome = match attempt(
        permit, p, s.counts, process, s.events, nodes, versions, tally,
    ) {
        Err(refusal) => Err(refusal),
        Ok(a) => {
            s.process[i] = a.process;
            s.counts = a.counts;
            s.events += 1;
            Ok(a.progress)
        }
    };
    Answered { outcome, state: s }
}
