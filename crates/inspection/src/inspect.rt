// Inspection: every level along the links, to the first fault.
ghost use Rattle.std.specs.Prelude.{◌≡◌, Ok};
ghost use Rattle.model.specs.Inspection.{inspection, inspect_of};
ghost use Rattle.tables.specs.Room.{memory, Lent};

use crate::faults::{chain_start, link_fault, node_fault, version_fault};
use crate::tops::count_tops;
use model::types::{Counts, Fault, Inspecting, State};
use refusals::permit::inspect_permit;
use tables::nodes::next_at;
use versiontable::versions::prev_at;

// Levels 0 to the highest, along the links from the head, and on level 0 along the chain of each node in one pass: left at the first fault,
// with the level and the node reached. `due` nodes reach the level. Document 01 asks for the loops in one function, left by a label.
// The tables are lent to be read, and a `Memory` has those to write.
fn inspect_levels(counts: Counts, nodes: &[u32], versions: &[u32]) -> Option<Fault>
    requires { Lent nodes.now versions.now counts }
    ensures { Ok result ≡ inspection (memory nodes.now versions.now counts) }
{
    let tops = count_tops(nodes, counts.nodes);
    let mut due = counts.nodes;
    'levels: {
        for level in 0..=State::TOP {
            let mut node = 0;
            let mut seen = 0;
            // Links end this loop and faults leave it, as document 01 asks; `seen` counts beside them.
            'links: loop {
                if node_fault(counts, nodes, level, node) {
                    break 'levels Some(Fault { level, node });
                }
                let mut version = chain_start(nodes, level, node);
                'chain: while version != 0 {
                    let prev = prev_at(versions, version);
                    if version_fault(versions, version, prev) {
                        break 'levels Some(Fault { level, node });
                    }
                    version = prev;
                }
                let next = next_at(nodes, level, node);
                if next == 0 {
                    break;
                }
                if link_fault(nodes, counts.nodes, level, node, next) {
                    break 'levels Some(Fault { level, node });
                }
                seen += 1;
                node = next;
            }
            if seen < due {
                break 'levels Some(Fault { level, node });
            }
            // `TopCounts` counts none whose top is the highest level: no level lies above.
            if level < State::TOP {
                due -= tops[level as usize];
            }
        }
        None
    }
}

// Sound, or the level and the node reached at the first fault.
#[tactic(auto, using(refusals::proofs::Laws::may_inspect), unfolding(model::specs::Inspection::inspect_by, model::specs::Inspection::inspect_of))]
pub fn inspect(s: State, nodes: &[u32], versions: &[u32]) -> Inspecting
    ensures { result ≡ inspect_of s nodes.now versions.now }
{
    inspect_permit(s, nodes, versions)?;
    Ok(inspect_levels(s.counts, nodes, versions))
}
