// One count more, in place.
ghost use Rattle.std.specs.Prelude.{◌≡◌};
ghost use Rattle.tally.specs.Tally.{more_of, grown_tally};

use crate::types::Tally;
use model::types::{Answer, State};

// A full count stays.
#[tactic(auto, unfolding(crate::specs::Tally::more_of))]
pub fn more(n: u32) -> u32
    ensures { result ≡ more_of n }
{
    if n < State::COUNT { n + 1 } else { n }
}

// Thin on purpose: a struct behind `&mut` is all that it adds, the number is `more`'s.
#[tactic(auto, unfolding(crate::specs::Tally::grown_tally))]
pub fn grow(t: &mut Tally, answer: Answer)
    ensures { t.exit.now ≡ grown_tally t.entry.now answer }
{
    match answer {
        Answer::TooOld => t.too_old = more(t.too_old),
        Answer::VersionsFull => t.versions_full = more(t.versions_full),
        Answer::Added => t.added = more(t.added),
        Answer::KeysFull => t.keys_full = more(t.keys_full),
        Answer::New => t.new = more(t.new),
        Answer::Found => t.found = more(t.found),
        Answer::None => t.none = more(t.none),
        Answer::Swept => {}
    }
}
