// The faults that an inspection looks for at a node of a level.
ghost use Rattle.std.specs.Prelude.{◌≡◌, List, ℕ};
ghost use Rattle.tables.specs.Room.{NodeRoom, LevelRoom, VersionRoom, memory, nodes_in};
ghost use Rattle.inspection.specs.Faults.{has_versions, chain_start, node_fault, version_fault, link_fault};

use model::types::Counts;
use tables::nodes::{key_at, lock_at, newest_at, top_at};
use versiontable::versions::timestamp_at;

// Whether the chain of a node is followed: on level 0 alone, and the head has none.
fn has_versions(level: u32, node: u32) -> bool
    ensures { result ≡ has_versions level node }
{
    level == 0 && node != 0
}

// The newest version of a node whose chain is followed, or 0: as in the lent words of the chain, whose end is a 0 too.
pub fn chain_start(nodes: &[u32], level: u32, node: u32) -> u32
    requires { NodeRoom nodes.now node }
    ensures { result ≡ chain_start nodes.now level node }
{
    if has_versions(level, node) {
        newest_at(nodes, node)
    } else {
        0
    }
}

// A fault of the node reached: its lock is held, or the chain to follow begins at no version in use.
pub fn node_fault(counts: Counts, nodes: &[u32], level: u32, node: u32) -> bool
    requires { LevelRoom nodes.now level node }
    ensures { (versions : List ℕ) → result ≡ node_fault (memory nodes.now versions counts) level node }
{
    lock_at(nodes, level, node) != 0
        || (has_versions(level, node) && !(1..=counts.versions).contains(&newest_at(nodes, node)))
}

// A fault of a version and the one before it, if there is one: its index is not smaller, or its timestamp greater.
// `prev` is a lent word, where 0 is none.
pub fn version_fault(versions: &[u32], version: u32, prev: u32) -> bool
    requires { VersionRoom versions.now version }
    ensures { result ≡ version_fault versions.now version prev }
{
    prev != 0 && (version <= prev || timestamp_at(versions, version) < timestamp_at(versions, prev))
}

// A fault of its link: the next node is not in use, its key not greater, or its top below the level.
pub fn link_fault(nodes: &[u32], used: u32, level: u32, node: u32, next: u32) -> bool
    requires used_room { NodeRoom nodes.now used }
    requires node_room { NodeRoom nodes.now node }
    ensures { (versions : List ℕ) (n : ℕ) → result ≡ link_fault (nodes_in nodes.now used versions n) level node next }
{
    used < next || key_at(nodes, next) <= key_at(nodes, node) || top_at(nodes, next) < level
}
