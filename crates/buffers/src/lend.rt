// How much of a buffer a table takes.
ghost use Rattle.std.specs.Prelude.{◌≡◌, take};
ghost use Rattle.buffers.specs.Session.{Lends, table_words};

use model::types::Lengths;

// A table of `words`, as far as the buffer goes: no length that a state or an open names reaches behind its buffer.
pub fn table_words(buffer: &[u32], words: u32) -> usize
    ensures { Lends result words buffer.now }
{
    buffer.len().min(words as usize)
}

// Both tables of these lengths, each at the start of its buffer.
pub fn tables<'a>(lengths: Lengths, nodes: &'a [u32], versions: &'a [u32]) -> (&'a [u32], &'a [u32])
    ensures nodes { result.0.now ≡ take lengths.nodes nodes.now }
    ensures versions { result.1.now ≡ take lengths.versions versions.now }
{
    let n = table_words(nodes, lengths.nodes);
    let m = table_words(versions, lengths.versions);
    (&nodes[..n], &versions[..m])
}

// A table with `count` records beside its first, as far as the buffer goes. Not `table_words` of a product: that need not fit into 32 bits.
pub fn asked(buffer: &[u32], words: u32, count: u32) -> usize
    ensures { Lends result (table_words words count) buffer.now }
{
    let all = u64::from(words) * (u64::from(count) + 1);
    buffer.len().min(all as usize)
}
