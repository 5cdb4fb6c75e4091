// Opening: both tables zeroed, and a fresh state.
ghost use Rattle.std.specs.Prelude.{◌≡◌};
ghost use Rattle.model.specs.Calls.{open_of};
ghost use Rattle.store.specs.Clauses.{opened};

use model::types::{Answered, Lengths, OpenResult, State};
use refusals::permit::open_permit;
use tables::fresh::clear_nodes;

// A refused opening leaves both tables as they were, and still gives a state: a closed one, on which every call is refused.
pub fn open(nodes: &mut [u32], versions: &mut [u32], processes: u32, limit: u32) -> OpenResult
    ensures { opened result nodes.new versions.new
        ≡ open_of nodes.old versions.old processes limit }
{
    match open_permit(nodes, versions, processes, limit) {
        Err(refusal) => Answered {
            outcome: Err(refusal),
            state: State::closed(),
        },
        Ok(()) => {
            let lengths = Lengths {
                nodes: nodes.len() as u32,
                versions: versions.len() as u32,
            };
            clear_nodes(nodes);
            versions.fill(0);
            Answered {
                outcome: Ok(()),
                state: State::fresh(processes, limit, lengths),
            }
        }
    }
}
