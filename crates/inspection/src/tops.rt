// The nodes in use by their top level.
ghost use Rattle.tables.specs.Room.{NodeRoom};
ghost use Rattle.inspection.specs.Tops.{TopCounts};

use model::types::State;
use tables::nodes::top_at;

// For each level below the highest the count of nodes whose top it is; `used` is the last node in use.
pub fn count_tops(nodes: &[u32], used: u32) -> [u32; State::LEVELS]
    requires { NodeRoom nodes.now used }
    ensures { TopCounts nodes.now used result }
{
    let mut counts = [0; State::LEVELS];
    for x in 1..=used {
        let top = top_at(nodes, x);
        if top < State::TOP {
            counts[top as usize] += 1;
        }
    }
    counts
}
