// Refusals 10 and 6: what is within the limits of document 01 and of P3.
ghost use Rattle.std.specs.Prelude.{◌&&◌, ◌≡◌, ◌+◌, ◌<◌, leb, length};
ghost use Rattle.model.specs.declared.types.State.{State};
ghost use Rattle.model.specs.Layout.{word_size, capacity};
ghost use Rattle.model.specs.State.{lawful_key, lawful_length, lawful_state, lawful_store};
ghost use Rattle.layout.specs.Head.{header_words, header_of};

use layout::head::{HeaderOffsets, OPEN};
use model::types::{Key, State};
use values::bounds::within;

// Refusal 6.
pub fn lawful_key(key: Key) -> bool
    ensures { result ≡ lawful_key key }
{
    (1..=State::KEY).contains(&key)
}

// Whether a table may have this length: so many words to a record, and at most so many records beside its first.
#[tactic(auto, unfolding(model::specs::State::lawful_length))]
pub fn lawful_length(words: u32, most: u32, n: usize) -> bool
    ensures { result ≡ lawful_length words most n }
{
    let words = words as usize;
    let last = words * (most as usize + 1);
    (2 * words..=last).contains(&n) && n.is_multiple_of(words)
}

// Whether a table of n words, so many to a record, is lawful and has room for the records in use beside its first.
// n is divided once: every step asks this of both tables. With && in place of & the proof of `returns-else-words-all` did not close.
#[tactic(auto, using(crate::proofs::Laws::one_division))]
fn holds(n: u32, words: u32, most: u32, used: u32) -> bool
    requires { (0 < words) × (most + 1 < word_size) }
    ensures { result ≡ lawful_length words most n && leb used (capacity words n) }
{
    let all = n / words;
    within(2, most + 1, all) & (words * all == n) & (used < all)
}

// Left at the first fault: every step asks this. The header is a slice here and in `refusals`: as an array it would save a clause in
// six functions, and six calls on lent words would have to turn a part into one.
#[tactic(auto, unfolding(model::specs::State::lawful_state))]
pub fn lawful_state(h: &[u32]) -> bool
    requires { length h.now ≡ header_words }
    ensures { (s : State) → header_of s ≡ h.now → result ≡ lawful_state s }
{
    h[HeaderOffsets::OPENED] == OPEN
        && within(1, State::PROCESSES, h[HeaderOffsets::PROCESSES])
        && within(1, State::EVENTS, h[HeaderOffsets::LIMIT])
        && h[HeaderOffsets::EVENTS] <= h[HeaderOffsets::LIMIT]
        && holds(
            h[HeaderOffsets::NODE_LENGTH],
            State::NODE_WORDS,
            State::NODES,
            h[HeaderOffsets::NODES],
        )
        && holds(
            h[HeaderOffsets::VERSION_LENGTH],
            State::VERSION_WORDS,
            State::VERSIONS,
            h[HeaderOffsets::VERSIONS],
        )
}

// The state is lawful, and the tables lent are of its lengths.
#[tactic(auto, unfolding(model::specs::State::lawful_store))]
pub fn lawful_store(h: &[u32], nodes: &[u32], versions: &[u32]) -> bool
    requires { length h.now ≡ header_words }
    ensures { (s : State) → header_of s ≡ h.now → result ≡ lawful_store s nodes.now versions.now }
{
    lawful_state(h)
        && nodes.len() == h[HeaderOffsets::NODE_LENGTH] as usize
        && versions.len() == h[HeaderOffsets::VERSION_LENGTH] as usize
}
