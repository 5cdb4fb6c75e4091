// What a move leaves, written where it stands. A process is lent by its position: of a part of an array lent as an array the proofs
// do not know what it ends as.
ghost use Rattle.std.specs.Prelude.{◌≡◌, true, false, ◌+◌, ◌≤◌, length, take, drop};
ghost use Rattle.model.specs.Calls.{process_after};
ghost use Rattle.model.specs.State.{idle_process};
ghost use Rattle.model.specs.Layout.{limits, top_level};
ghost use Rattle.model.specs.Phases.{refuses};
ghost use Rattle.process.specs.ProcessWords.{sizes, known_process};
ghost use Rattle.apply.specs.Leave.{process_in, leave_in};

use crate::changes::{apply_commit, apply_note};
use calls::after::{count_end, outcome_of};
use layout::state::put_event;
use model::types::{Counts, Move, Process, Progress, Refusal, Stepping};
use process::types::Sizes;
use process::words::{call_in, put_cursor, words_of};

// A move that ends its call: the answer is counted, and the process is idle.
fn finish(
    words: &mut [u32; Sizes::STATE],
    at: usize,
    tick: u32,
    counts: Counts,
    mv: Move,
    tally: &mut [u32],
) -> Stepping
    requires fits { at + sizes.process ≤ sizes.state }
    requires accepted { refuses mv ≡ false }
    requires ends { process_after tick (process_in words.old at) mv ≡ idle_process }
    requires tally_len { length tally.old ≡ limits.tally }
    ensures { record { outcome = result; words = words.new; tally = tally.new }
        ≡ leave_in tick counts mv words.old at tally.old }
{
    count_end(tally, mv);
    let to = at + Sizes::PROCESS;
    let call = call_in(words[at..to].as_array().unwrap());
    words[at..to].copy_from_slice(&words_of(Process::idle()));
    put_event(words, tick, counts);
    outcome_of(tick, call, mv)
}

// `counts` are those that the transition left. Each arm writes all that its move does, so that the compiled code goes from the
// phase that made the move straight to it, and writes no word that stays. A match after it, or the whole process put back as
// `process_after` has it, made a step slower (docs/PERFORMANCE.md).
#[tactic(auto, unfolding(model::specs::Calls::process_after, model::specs::Calls::outcome_of, model::specs::Calls::tally_after))]
pub fn leave(
    words: &mut [u32; Sizes::STATE],
    at: usize,
    tick: u32,
    counts: Counts,
    mv: Move,
    tally: &mut [u32],
) -> Stepping
    requires fits { at + sizes.process ≤ sizes.state }
    requires known { known_process (take sizes.process (drop at words.old)) ≡ true }
    requires level { refuses mv ≡ false → (process_in words.old at).cursor.level ≤ top_level }
    requires tally_len { length tally.old ≡ limits.tally }
    ensures { record { outcome = result; words = words.new; tally = tally.new }
        ≡ leave_in tick counts mv words.old at tally.old }
{
    let to = at + Sizes::PROCESS;
    match mv {
        Move::Refuse => Err(Refusal::Damaged),
        Move::Wait => {
            put_event(words, tick, counts);
            Ok(Progress::Waited(tick))
        }
        Move::Go(cursor) => {
            put_cursor(&mut words[at..to], cursor);
            put_event(words, tick, counts);
            Ok(Progress::Moved(tick))
        }
        Move::Note(cursor) => {
            apply_note(&mut words[at..to], cursor);
            put_event(words, tick, counts);
            Ok(Progress::Moved(tick))
        }
        Move::Commit(cursor, answer) => {
            apply_commit(&mut words[at..to], tick, cursor, answer);
            put_event(words, tick, counts);
            Ok(Progress::Moved(tick))
        }
        Move::Show(cursor, item) => {
            put_cursor(&mut words[at..to], cursor);
            put_event(words, tick, counts);
            Ok(Progress::Shown(tick, item))
        }
        Move::End(..) => finish(words, at, tick, counts, mv, tally),
    }
}
