// What a move leaves of its process and of the tally, and what the step answers.
ghost use Rattle.std.specs.Prelude.{◌≡◌, ◌≤◌, length, set};
ghost use Rattle.model.specs.Layout.{limits, top_level};
ghost use Rattle.model.specs.Calls.{process_after, outcome_of, tally_after};

use model::types::{Call, Effect, Finish, Move, Process, Progress, Refusal, State, Stepping};
use tally::count::count;

// The process with its predecessor remembered at its level. A clause says that the level is one: a process may hold any number, and
// only the transition tests it.
fn remember(p: Process) -> [u32; State::LEVELS]
    requires { p.cursor.level ≤ top_level }
    ensures { result ≡ set p.preds p.cursor.level p.cursor.pred }
{
    let mut preds = p.preds;
    let level = p.cursor.level as usize;
    preds[level] = p.cursor.pred;
    preds
}

#[tactic(auto, unfolding(model::specs::Calls::process_after))]
pub fn process_after(tick: u32, p: Process, mv: Move) -> Process
    requires { p.cursor.level ≤ top_level }
    ensures { result ≡ process_after tick p mv }
{
    match mv {
        Move::Refuse | Move::Wait => p,
        Move::Go(cursor) | Move::Show(cursor, _) => Process { cursor, ..p },
        Move::Note(cursor) => Process {
            cursor,
            preds: remember(p),
            ..p
        },
        Move::Commit(cursor, answer) => Process {
            cursor,
            effect: Effect { answer, tick },
            ..p
        },
        Move::End(..) => Process::idle(),
    }
}

#[tactic(auto, unfolding(model::specs::Calls::outcome_of))]
pub fn outcome_of(tick: u32, call: Call, mv: Move) -> Stepping
    ensures { result ≡ outcome_of tick call mv }
{
    match mv {
        Move::Refuse => Err(Refusal::Damaged),
        Move::Wait => Ok(Progress::Waited(tick)),
        Move::Go(_) | Move::Note(_) | Move::Commit(..) => Ok(Progress::Moved(tick)),
        Move::Show(_, item) => Ok(Progress::Shown(tick, item)),
        Move::End(answer, version, effect) => Ok(Progress::Finished(Finish {
            kind: call.kind,
            answer,
            value: version.value,
            timestamp: version.timestamp,
            start: call.start,
            effect,
            finish: tick,
        })),
    }
}

// A move that ends its call is counted.
#[tactic(auto, unfolding(model::specs::Calls::tally_after))]
pub fn count_end(tally: &mut [u32], mv: Move)
    requires { length tally.old ≡ limits.tally }
    ensures { tally.new ≡ tally_after tally.old mv }
{
    if let Move::End(answer, _, _) = mv {
        count(tally, answer);
    }
}
