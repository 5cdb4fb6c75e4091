// A key of 64 bits in two words of 32: all arithmetic on its halves. A key is the library's u64, so no From of it can be written here;
// the two halves differ in an operation, which no parameter gives.
ghost use Rattle.std.specs.Prelude.{◌≡◌};
ghost use Rattle.model.specs.Layout.{low_half, high_half, joined};

use model::types::Key;

// How many numbers a word can hold.
const WORD_SIZE: Key = 1 << u32::BITS;

pub fn low_half(key: Key) -> u32
    ensures { result ≡ low_half key }
{
    (key % WORD_SIZE) as u32
}

pub fn high_half(key: Key) -> u32
    ensures { result ≡ high_half key }
{
    (key / WORD_SIZE) as u32
}

#[tactic(auto, unfolding(model::specs::Layout::joined))]
pub fn joined(low: u32, high: u32) -> Key
    ensures { result ≡ joined low high }
{
    Key::from(low) + WORD_SIZE * Key::from(high)
}
