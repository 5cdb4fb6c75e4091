// Make and link: the steps of a put that write nodes and links.
ghost use Rattle.std.specs.Prelude.{◌≡◌, ◌≤◌, ◌+◌, List, ℕ};
ghost use Rattle.model.specs.Phases.{moved, add_node, make_of, link_of};
ghost use Rattle.tables.specs.Room.{NodeRoom, VersionRoom, nodes_in};
ghost use Rattle.versiontable.specs.Held.{held, SameTables};
ghost use Rattle.phases.specs.Placed.{Placed};
ghost use Rattle.phases.specs.Ready.{Ready};

use model::types::{Answer, Call, Cursor, Move, Phase, State};
use phases::moves::{commit, go};
use tables::nodes::{next_at, set_next};
use versiontable::memory::Memory;

// The new node, with the call's version, behind the predecessor at level 0, and its index.
#[tactic(auto, unfolding(model::specs::Phases::add_node))]
fn add_node(call: Call, c: Cursor, memory: &mut Memory) -> u32
    requires pred { c.pred ≤ memory.old.counts.nodes }
    requires node_room { NodeRoom memory.old.nodes.now (memory.old.counts.nodes + 1) }
    requires version_room { VersionRoom memory.old.versions.now (memory.old.counts.versions + 1) }
    ensures index { result ≡ memory.old.counts.nodes + 1 }
    ensures memory { held memory.new ≡ add_node call c (held memory.old) }
    ensures tables { SameTables memory.old memory.new }
{
    let version = memory.add_version(call.value, call.timestamp, 0);
    let next = memory.next(0, c.pred);
    let node = memory.add_node(call.key, version, call.top, next);
    memory.set_next(0, c.pred, node);
    node
}

#[tactic(auto, unfolding(model::specs::Phases::make_of))]
pub fn make(call: Call, c: Cursor, memory: &mut Memory) -> Move
    requires { Placed c memory.old }
    ensures moved { moved (held memory.new) result ≡ make_of call c (held memory.old) }
    ensures tables { SameTables memory.old memory.new }
{
    if memory.nodes_full() {
        return commit(c, c.made, Answer::KeysFull);
    }
    if memory.versions_full() {
        return commit(c, c.made, Answer::VersionsFull);
    }
    if State::TOP < call.top {
        return Move::Refuse;
    }
    let made = add_node(call, c, memory);
    commit(c, made, Answer::New)
}

// The new node behind the predecessor at the cursor's level. It is lent the node table alone.
#[tactic(auto, unfolding(model::specs::Phases::add_link, model::specs::Phases::link_of))]
pub fn link(c: Cursor, used: u32, nodes: &mut [u32]) -> Move
    requires { Ready nodes.old used c }
    ensures { (versions : List ℕ) (n : ℕ) → moved (nodes_in nodes.new used versions n) result
        ≡ link_of c (nodes_in nodes.old used versions n) }
{
    let made = c.made;
    if !(1..=used).contains(&made) {
        return Move::Refuse;
    }
    let next = next_at(nodes, c.level, c.pred);
    set_next(nodes, c.level, made, next);
    set_next(nodes, c.level, c.pred, made);
    go(c, Phase::Release, c.level, c.pred)
}
