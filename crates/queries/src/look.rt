// A look at a version of a key.
ghost use Rattle.std.specs.Prelude.{◌≡◌, Ok};
ghost use Rattle.model.specs.Calls.{find_from, back_from, look_by, look_of};
ghost use Rattle.tables.specs.Room.{NodeRoom, VersionRoom, memory, Lent};
ghost use Rattle.queries.specs.Found.{node_found};

use layout::head::header_of;
use model::types::{Counts, Key, Looking, Refusal, State};
use refusals::permit::look_permit;
use tables::nodes::{key_at, newest_at};
use versiontable::versions::{prev_at, version_at};

// The first node that has the key; `used` is the last node in use. The range is half open: one that includes its end tests two things
// at each node, and a look took twice as long.
fn find(nodes: &[u32], used: u32, key: Key) -> Option<u32>
    requires { NodeRoom nodes.now used }
    ensures { result ≡ node_found (find_from nodes.now key used 1) }
{
    (0..used)
        .find(|&x| key_at(nodes, x + 1) == key)
        .map(|x| x + 1)
}

// The version that lies `back` places behind another.
fn version_back(versions: &[u32], from: u32, back: u32) -> Looking
    requires { VersionRoom versions.now from }
    ensures { result ≡ back_from versions.now back from }
{
    let mut i = from;
    for _ in 0..back {
        let prev = prev_at(versions, i);
        if i <= prev {
            return Err(Refusal::Damaged);
        }
        if prev == 0 {
            return Err(Refusal::NoVersion);
        }
        i = prev;
    }
    Ok(version_at(versions, i))
}

// A look that is let pass. It is lent tables to read, and a `Memory` those to write. Of the state it reads no more than the counts,
// so that words are not decoded for it.
pub fn look_granted(counts: Counts, nodes: &[u32], versions: &[u32], key: Key, back: u32) -> Looking
    requires { Lent nodes.now versions.now counts }
    ensures { result ≡ look_by (Ok tt) (memory nodes.now versions.now counts) key back }
{
    let node = find(nodes, counts.nodes, key).ok_or(Refusal::NoKey)?;
    let newest = newest_at(nodes, node);
    if !(1..=counts.versions).contains(&newest) {
        return Err(Refusal::Damaged);
    }
    version_back(versions, newest, back)
}

// The version of the key that lies `back` places behind its newest.
#[tactic(auto, using(refusals::proofs::Laws::may_look), unfolding(model::specs::Calls::look_by, model::specs::Calls::look_of))]
pub fn look(s: State, nodes: &[u32], versions: &[u32], key: Key, back: u32) -> Looking
    ensures { result ≡ look_of s nodes.now versions.now key back }
{
    look_permit(&header_of(s), nodes, versions, key)?;
    look_granted(s.counts, nodes, versions, key, back)
}
