// Opening: whatever stood in the words, the state that it gives is written over them.
ghost use Rattle.std.specs.Prelude.{◌≡◌};
ghost use Rattle.lent.specs.Calls.{opened_in, open_in};

use layout::state::put_state;
use model::types::{Opening, Refusal};
use store::open::open;

// Words of another number are refused and left: a state has no room in them. No other opening leaves the words as they
// were: where it is refused they are a closed state.
#[tactic(auto, unfolding(crate::specs::Calls::open_in))]
pub fn open_in(
    words: &mut [u32],
    nodes: &mut [u32],
    versions: &mut [u32],
    processes: u32,
    limit: u32,
) -> Opening
    ensures { opened_in result words.new nodes.new versions.new
        ≡ open_in words.old nodes.old versions.old processes limit }
{
    let Some(words) = words.as_mut_array() else {
        return Err(Refusal::Corrupt);
    };
    let r = open(nodes, versions, processes, limit);
    put_state(words, r.state);
    r.outcome
}
