// The node table as an opening leaves it.
ghost use Rattle.std.specs.Prelude.{◌≡◌, ◌≤◌, length};
ghost use Rattle.model.specs.Layout.{node_words, fresh_nodes};

use model::types::{NodeOffsets, State};

// All zero but the head's top level.
#[tactic(auto, unfolding(model::specs::Layout::fresh_nodes, model::specs::Layout::with_word))]
pub fn clear_nodes(nodes: &mut [u32])
    requires { node_words ≤ length nodes.old }
    ensures { nodes.new ≡ fresh_nodes (length nodes.old) }
{
    nodes.fill(0);
    nodes[NodeOffsets::TOP] = State::TOP;
}
