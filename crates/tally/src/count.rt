// The tally in seven lent words: what every caller uses. The struct that document 01 asks for cannot be laid over them, and a slice
// may have another length, so the conversions are functions and no From.
ghost use Rattle.std.specs.Prelude.{◌≡◌, length};
ghost use Rattle.model.specs.Layout.{limits};
ghost use Rattle.model.specs.Calls.{counted};
ghost use Rattle.tally.specs.Words.{tally_in, words_of};

use crate::grow::grow;
use crate::types::Tally;
use model::types::Answer;

fn tally_in(words: &[u32]) -> Tally
    requires { length words.now ≡ limits.tally }
    ensures { result ≡ tally_in words.now }
{
    Tally {
        too_old: words[0],
        versions_full: words[1],
        added: words[2],
        keys_full: words[3],
        new: words[4],
        found: words[5],
        none: words[6],
    }
}

fn put_tally(words: &mut [u32], t: Tally)
    requires { length words.old ≡ limits.tally }
    ensures { words.new ≡ words_of t }
{
    words[0] = t.too_old;
    words[1] = t.versions_full;
    words[2] = t.added;
    words[3] = t.keys_full;
    words[4] = t.new;
    words[5] = t.found;
    words[6] = t.none;
}

// One more of an answer.
#[tactic(auto, using(crate::proofs::Laws::counted_grown))]
pub fn count(tally: &mut [u32], answer: Answer)
    requires { length tally.old ≡ limits.tally }
    ensures { tally.new ≡ counted tally.old answer }
{
    let mut t = tally_in(tally);
    grow(&mut t, answer);
    put_tally(tally, t);
}
