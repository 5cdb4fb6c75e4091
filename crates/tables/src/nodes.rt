// The node table. `next`, `lock` and `newest` give the word as it is, 0 for none: the layout and these definitions fix it. An accessor
// gives its word a name and no more: a const parameter in place of two names would be plainer nowhere. Each asks that its node has
// room: an index of a type of its own would be made anew of each word read.
#![tactic(auto, unfolding(model::specs::Layout::word, model::specs::Layout::with_word))]

ghost use Rattle.std.specs.Prelude.{◌≡◌, ◌+◌, ◌<◌, List, ℕ, false, leb, length};
ghost use Rattle.model.specs.Layout.{node_words, capacity, key, newest, top, next, lock, with_newest, with_next, with_lock, node_record, with_node};
ghost use Rattle.model.specs.Phases.{ahead};
ghost use Rattle.model.specs.declared.types.Ahead.TheVariants.{Equal};
ghost use Rattle.tables.specs.Room.{NodeRoom, LevelRoom, nodes_in};

use crate::records::{is_full, set_word, word_at};
use model::types::{Ahead, Key, NodeOffsets, State};
use values::halves::{high_half, joined, low_half};

// `State::NODE_WORDS`, to reckon an index with.
const NODE_WORDS: usize = State::NODE_WORDS as usize;

pub fn key_at(nodes: &[u32], node: u32) -> Key
    requires { NodeRoom nodes.now node }
    ensures { result ≡ key nodes.now node }
{
    let low = word_at::<NODE_WORDS>(nodes, node, NodeOffsets::KEY_LOW);
    let high = word_at::<NODE_WORDS>(nodes, node, NodeOffsets::KEY_HIGH);
    joined(low, high)
}

pub fn newest_at(nodes: &[u32], node: u32) -> u32
    requires { NodeRoom nodes.now node }
    ensures { result ≡ newest nodes.now node }
{
    word_at::<NODE_WORDS>(nodes, node, NodeOffsets::NEWEST)
}

pub fn top_at(nodes: &[u32], node: u32) -> u32
    requires { NodeRoom nodes.now node }
    ensures { result ≡ top nodes.now node }
{
    word_at::<NODE_WORDS>(nodes, node, NodeOffsets::TOP)
}

pub fn next_at(nodes: &[u32], level: u32, node: u32) -> u32
    requires { LevelRoom nodes.now level node }
    ensures { result ≡ next nodes.now level node }
{
    word_at::<NODE_WORDS>(nodes, node, NodeOffsets::LINKS + level as usize)
}

pub fn lock_at(nodes: &[u32], level: u32, node: u32) -> u32
    requires { LevelRoom nodes.now level node }
    ensures { result ≡ lock nodes.now level node }
{
    word_at::<NODE_WORDS>(nodes, node, NodeOffsets::LOCKS + level as usize)
}

pub fn set_newest(nodes: &mut [u32], node: u32, version: u32)
    requires { NodeRoom nodes.old node }
    ensures { nodes.new ≡ with_newest nodes.old node version }
{
    set_word::<NODE_WORDS>(nodes, node, NodeOffsets::NEWEST, version);
}

pub fn set_next(nodes: &mut [u32], level: u32, node: u32, to: u32)
    requires { LevelRoom nodes.old level node }
    ensures { nodes.new ≡ with_next nodes.old level node to }
{
    set_word::<NODE_WORDS>(nodes, node, NodeOffsets::LINKS + level as usize, to);
}

pub fn set_lock(nodes: &mut [u32], level: u32, node: u32, holder: u32)
    requires { LevelRoom nodes.old level node }
    ensures { nodes.new ≡ with_lock nodes.old level node holder }
{
    set_word::<NODE_WORDS>(nodes, node, NodeOffsets::LOCKS + level as usize, holder);
}

// The words of a node, where they stand: an array that is copied in makes each step 2 instructions longer. What is not named stays
// zero: the links above level 0, and every lock.
fn fill_node(part: &mut [u32], key: Key, version: u32, top: u32, next: u32)
    requires { length part.old ≡ node_words }
    ensures { part.new ≡ node_record key version top next }
{
    part.fill(0);
    part[NodeOffsets::KEY_LOW] = low_half(key);
    part[NodeOffsets::NEWEST] = version;
    part[NodeOffsets::TOP] = top;
    part[NodeOffsets::KEY_HIGH] = high_half(key);
    part[NodeOffsets::LINKS] = next;
}

// A new node: its part of the table is lent to the writer of its words.
#[tactic(auto, using(crate::proofs::Lists::part_back), unfolding(model::specs::Layout::with_node))]
pub fn write_node(nodes: &mut [u32], node: u32, key: Key, version: u32, top: u32, next: u32)
    requires { NodeRoom nodes.old node }
    ensures { nodes.new ≡ with_node nodes.old node key version top next }
{
    let from = NODE_WORDS * node as usize;
    fill_node(&mut nodes[from..from + NODE_WORDS], key, version, top, next);
}

// Whether the table has no room for a node after the last one in use.
pub fn nodes_full(nodes: &[u32], used: u32) -> bool
    requires { NodeRoom nodes.now used }
    ensures full { result ≡ leb (capacity node_words (length nodes.now)) used }
    ensures room { result ≡ false → NodeRoom nodes.now (used + 1) }
{
    is_full::<NODE_WORDS>(nodes, used)
}

// Where the link of a node leads, against a key; `used` is the last node in use.
#[tactic(auto, unfolding(model::specs::Phases::ahead))]
pub fn ahead(nodes: &[u32], used: u32, level: u32, pred: u32, key: Key) -> Ahead
    requires pred { LevelRoom nodes.now level pred }
    requires used { NodeRoom nodes.now used }
    ensures ahead { (versions : List ℕ) (n : ℕ) → result ≡ ahead (nodes_in nodes.now used versions n) level pred key }
    ensures not_head { (node : ℕ) → result ≡ Equal node → 0 < node }
{
    let y = next_at(nodes, level, pred);
    if y == 0 {
        return Ahead::Past;
    }
    if used < y {
        return Ahead::Unused;
    }
    let found = key_at(nodes, y);
    if found < key {
        Ahead::Less(y)
    } else if found == key {
        Ahead::Equal(y)
    } else {
        Ahead::Past
    }
}
