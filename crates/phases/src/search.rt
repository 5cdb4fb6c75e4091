// Walk, read and seek: the steps that write nothing. Walk and seek share the look ahead; what each case does is its own (`walk_by`,
// `seek_by`). They are lent the node table alone, where a `Memory` would ask for both: docs/TRACE.md names each of them.
// Call and cursor stay two: a step that reads more of its process than its phase needs was slower (docs/PERFORMANCE.md).
ghost use Rattle.std.specs.Prelude.{◌≡◌, ◌<◌, List, ℕ, IfSome, unwrap_or};
ghost use Rattle.phases.specs.Types.{Call};
ghost use Rattle.phases.specs.Ready.{Ready};
ghost use Rattle.model.specs.Phases.{descend, walk_of, read_of, seek_of};
ghost use Rattle.tables.specs.Room.{VersionRoom, memory, nodes_in};

use crate::moves::{go, note};
use model::types::{Ahead, Answer, Call, Cursor, Kind, Move, Phase, Version};
use tables::nodes::{ahead, newest_at};
use versiontable::versions::version_at;

// One level down, or the end of the walk, at the node that has the key, if there is one.
#[tactic(auto, unfolding(model::specs::Phases::descend, model::specs::Phases::walked))]
fn descend(call: Call, c: Cursor, tick: u32, found: Option<u32>) -> Move
    requires { IfSome found (λ node. 0 < node) }
    ensures { result ≡ descend call c tick (unwrap_or found 0) }
{
    if c.level != 0 {
        return note(c, Phase::Walk, c.level - 1, c.pred);
    }
    match (call.kind, found) {
        (Kind::Idle, _) => Move::Refuse,
        (Kind::Put, _) => note(c, Phase::Seek, c.level, c.pred),
        (Kind::Get, Some(node)) => note(c, Phase::Read, c.level, node),
        (Kind::Get, None) => Move::End(Answer::None, Version::default(), tick),
        (Kind::Scan, _) => note(c, Phase::Follow, c.level, c.pred),
    }
}

#[tactic(auto, unfolding(model::specs::Phases::walk_by, model::specs::Phases::walk_of))]
pub fn walk(call: Call, c: Cursor, tick: u32, used: u32, nodes: &[u32]) -> Move
    requires { Ready nodes.now used c }
    ensures { (versions : List ℕ) (n : ℕ) → result ≡ walk_of call c tick (nodes_in nodes.now used versions n) }
{
    match ahead(nodes, used, c.level, c.pred, call.key) {
        Ahead::Unused => Move::Refuse,
        Ahead::Less(node) => go(c, Phase::Walk, c.level, node),
        Ahead::Equal(node) => descend(call, c, tick, Some(node)),
        Ahead::Past => descend(call, c, tick, None),
    }
}

// `last` is the last version in use.
#[tactic(auto, unfolding(model::specs::Phases::read_of))]
pub fn read(c: Cursor, tick: u32, used: u32, last: u32, nodes: &[u32], versions: &[u32]) -> Move
    requires ready { Ready nodes.now used c }
    requires version_room { VersionRoom versions.now last }
    ensures { (call : Call) → result
        ≡ read_of call c tick (memory nodes.now versions.now (record { nodes = used; versions = last })) }
{
    let newest = newest_at(nodes, c.pred);
    if !(1..=last).contains(&newest) {
        return Move::Refuse;
    }
    Move::End(Answer::Found, version_at(versions, newest), tick)
}

#[tactic(auto, unfolding(model::specs::Phases::seek_by, model::specs::Phases::seek_of))]
pub fn seek(call: Call, c: Cursor, used: u32, nodes: &[u32]) -> Move
    requires { Ready nodes.now used c }
    ensures { (versions : List ℕ) (n : ℕ) → result ≡ seek_of call c (nodes_in nodes.now used versions n) }
{
    match ahead(nodes, used, c.level, c.pred, call.key) {
        Ahead::Unused => Move::Refuse,
        Ahead::Less(node) => go(c, Phase::Seek, c.level, node),
        Ahead::Equal(_) | Ahead::Past => go(c, Phase::Lock, c.level, c.pred),
    }
}
