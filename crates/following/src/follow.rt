// Follow: a scan goes along level 0, and shows each node whose key is in its range. Nothing is written.
// It is lent tables to read, and a `Memory` those to write: docs/TRACE.md names it.
ghost use Rattle.std.specs.Prelude.{◌≡◌};
ghost use Rattle.model.specs.Phases.{show_at, swept, follow_at, follow_of};
ghost use Rattle.tables.specs.Room.{NodeRoom, VersionRoom, memory};
ghost use Rattle.phases.specs.Ready.{Ready};
ghost use Rattle.phases.specs.Types.{Call};

use model::types::{Answer, Call, Counts, Cursor, Item, Move, Phase, Version};
use phases::moves::{go, show};
use tables::nodes::{key_at, newest_at, next_at};
use versiontable::versions::version_at;

// A node of the range is shown, if its newest version is in use.
#[tactic(auto, unfolding(model::specs::Phases::show_at))]
fn show_at(c: Cursor, node: u32, counts: Counts, nodes: &[u32], versions: &[u32]) -> Move
    requires node_room { NodeRoom nodes.now node }
    requires version_room { VersionRoom versions.now counts.versions }
    ensures { result ≡ show_at c node (memory nodes.now versions.now counts) }
{
    let newest = newest_at(nodes, node);
    if !(1..=counts.versions).contains(&newest) {
        return Move::Refuse;
    }
    let key = key_at(nodes, node);
    let version = version_at(versions, newest);
    show(c, node, Item { key, version })
}

// A scan ends without an effect, whatever it was asked.
fn end() -> Move
    ensures { (call : Call) → result ≡ swept call }
{
    Move::End(Answer::Swept, Version::default(), 0)
}

// The node ahead: past the range, before it, or in it. A node before it was made since the walk.
#[tactic(auto, unfolding(model::specs::Phases::follow_at))]
fn follow_at(
    call: Call,
    c: Cursor,
    node: u32,
    counts: Counts,
    nodes: &[u32],
    versions: &[u32],
) -> Move
    requires node_room { NodeRoom nodes.now node }
    requires version_room { VersionRoom versions.now counts.versions }
    ensures { result ≡ follow_at call c node (memory nodes.now versions.now counts) }
{
    let key = key_at(nodes, node);
    if call.last < key {
        return end();
    }
    if key < call.key {
        return go(c, Phase::Follow, c.level, node);
    }
    show_at(c, node, counts, nodes, versions)
}

// One link of level 0, whatever the cursor's level.
#[tactic(auto, unfolding(model::specs::Phases::follow_of))]
pub fn follow(call: Call, c: Cursor, counts: Counts, nodes: &[u32], versions: &[u32]) -> Move
    requires ready { Ready nodes.now counts.nodes c }
    requires version_room { VersionRoom versions.now counts.versions }
    ensures { result ≡ follow_of call c (memory nodes.now versions.now counts) }
{
    let node = next_at(nodes, 0, c.pred);
    if node == 0 {
        return end();
    }
    if counts.nodes < node {
        return Move::Refuse;
    }
    follow_at(call, c, node, counts, nodes, versions)
}
