// What a move leaves of its process, in place: only the words that it changes are written. That the words were a process's is a
// clause: what is not written must be known as it was. They are a slice: what a part ends as that is lent as an array, the proofs do
// not know.
ghost use Rattle.std.specs.Prelude.{◌≡◌, length, ℕ, ◌≤◌, true};
ghost use Rattle.process.specs.ProcessWords.{sizes, process_words, process_from, known_process};
ghost use Rattle.model.specs.Layout.{top_level};
ghost use Rattle.model.specs.Calls.{process_after};
ghost use Rattle.model.specs.declared.types.Move.TheVariants.{Note, Commit};

use model::types::{Answer, Cursor, Effect};
use process::types::ProcessOffsets;
use process::words::{put_cursor, put_effect};

// The predecessor is remembered at its level before the cursor leaves it.
pub fn apply_note(w: &mut [u32], cursor: Cursor)
    requires len { length w.old ≡ sizes.process }
    requires known { known_process w.old ≡ true }
    requires level { (process_from w.old).cursor.level ≤ top_level }
    ensures { (tick : ℕ) → w.new ≡ process_words (process_after tick (process_from w.old) (Note cursor)) }
{
    let at = ProcessOffsets::PREDS + w[ProcessOffsets::LEVEL] as usize;
    w[at] = w[ProcessOffsets::PRED];
    put_cursor(w, cursor);
}

pub fn apply_commit(w: &mut [u32], tick: u32, cursor: Cursor, answer: Answer)
    requires len { length w.old ≡ sizes.process }
    requires known { known_process w.old ≡ true }
    ensures { w.new ≡ process_words (process_after tick (process_from w.old) (Commit cursor answer)) }
{
    put_cursor(w, cursor);
    put_effect(w, Effect { answer, tick });
}
