// One step of one process, on small records: its transition, what that leaves of it, and the tally.
ghost use Rattle.std.specs.Prelude.{◌≡◌, length};
ghost use Rattle.model.specs.Layout.{limits};
ghost use Rattle.tables.specs.Room.{Lent, memory};
ghost use Rattle.calls.specs.Advance.{advance_of};
ghost use Rattle.storestep.specs.Attempt.{advanced};

use crate::types::Advanced;
use calls::after::{count_end, outcome_of, process_after};
use model::types::{Counts, Process, Refusal};
use process::words::words_of;
use transition::step::transition;
use versiontable::memory::Memory;

// The process after its step, for the caller to put back; in lent words `advance_in` writes what changes in place. `holder` is the process's
// number plus 1, `tick` that of this event.
pub fn advance(
    p: Process,
    counts: Counts,
    holder: u32,
    tick: u32,
    nodes: &mut [u32],
    versions: &mut [u32],
    tally: &mut [u32],
) -> Result<Advanced, Refusal>
    requires lent { Lent nodes.old versions.old counts }
    requires tally_len { length tally.old ≡ limits.tally }
    ensures { advanced p counts result nodes.new versions.new tally.new
        ≡ advance_of holder tick p (memory nodes.old versions.old counts) tally.old }
{
    let mut memory = Memory {
        nodes,
        versions,
        counts,
    };
    let mv = transition(&words_of(p), holder, tick, &mut memory);
    let counts = memory.counts;
    let progress = outcome_of(tick, p.call, mv)?;
    count_end(tally, mv);
    Ok(Advanced {
        progress,
        process: process_after(tick, p, mv),
        counts,
    })
}
