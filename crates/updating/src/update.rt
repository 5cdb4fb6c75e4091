// Update: the step of a put that writes a version.
ghost use Rattle.std.specs.Prelude.{◌≡◌, ◌≤◌, ◌+◌};
ghost use Rattle.model.specs.Phases.{moved, add_version, update_node, update_of};
ghost use Rattle.tables.specs.Room.{VersionRoom};
ghost use Rattle.versiontable.specs.Held.{held, SameTables};
ghost use Rattle.phases.specs.Placed.{Placed};

use model::types::{Answer, Call, Cursor, Move};
use phases::moves::commit;
use versiontable::memory::Memory;

// The call's version in front of a node's.
#[tactic(auto, unfolding(model::specs::Phases::add_version))]
fn add_version(call: Call, node: u32, memory: &mut Memory)
    requires node { node ≤ memory.old.counts.nodes }
    requires room { VersionRoom memory.old.versions.now (memory.old.counts.versions + 1) }
    ensures memory { held memory.new ≡ add_version call node (held memory.old) }
    ensures tables { SameTables memory.old memory.new }
{
    let prev = memory.newest(node);
    let version = memory.add_version(call.value, call.timestamp, prev);
    memory.set_newest(node, version);
}

// The put on a node whose newest version is in use.
#[tactic(auto, unfolding(model::specs::Phases::update_node))]
fn update_node(call: Call, c: Cursor, node: u32, newest: u32, memory: &mut Memory) -> Move
    requires node { node ≤ memory.old.counts.nodes }
    requires newest { newest ≤ memory.old.counts.versions }
    ensures moved { moved (held memory.new) result ≡ update_node call c node newest (held memory.old) }
    ensures tables { SameTables memory.old memory.new }
{
    if call.timestamp < memory.timestamp(newest) {
        return commit(c, c.made, Answer::TooOld);
    }
    if memory.versions_full() {
        return commit(c, c.made, Answer::VersionsFull);
    }
    add_version(call, node, memory);
    commit(c, c.made, Answer::Added)
}

// The put on the node that the predecessor's link at level 0 leads to.
#[tactic(auto, unfolding(model::specs::Phases::update_at, model::specs::Phases::update_of))]
pub fn update(call: Call, c: Cursor, memory: &mut Memory) -> Move
    requires { Placed c memory.old }
    ensures moved { moved (held memory.new) result ≡ update_of call c (held memory.old) }
    ensures tables { SameTables memory.old memory.new }
{
    let node = memory.next(0, c.pred);
    if !memory.has_node(node) {
        return Move::Refuse;
    }
    let newest = memory.newest(node);
    if !memory.has_version(newest) {
        return Move::Refuse;
    }
    update_node(call, c, node, newest, memory)
}
