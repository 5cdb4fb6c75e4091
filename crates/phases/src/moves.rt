// The moves that carry a cursor, and the test for the one that refuses. Each makes another variant, which no parameter gives.
ghost use Rattle.std.specs.Prelude.{◌≡◌};
ghost use Rattle.model.specs.Phases.{at, committed, refuses};
ghost use Rattle.phases.specs.Types.{Go, Note, Show};

use model::types::{Answer, Cursor, Item, Move, Phase};

// The cursor moves.
pub fn go(c: Cursor, phase: Phase, level: u32, pred: u32) -> Move
    ensures { result ≡ Go (at c phase level pred) }
{
    Move::Go(Cursor {
        phase,
        level,
        pred,
        ..c
    })
}

// The same, and its predecessor is remembered.
pub fn note(c: Cursor, phase: Phase, level: u32, pred: u32) -> Move
    ensures { result ≡ Note (at c phase level pred) }
{
    Move::Note(Cursor {
        phase,
        level,
        pred,
        ..c
    })
}

// A scan's cursor moves to a node, which is shown.
pub fn show(c: Cursor, node: u32, item: Item) -> Move
    ensures { result ≡ Show (at c Phase.Follow c.level node) item }
{
    Move::Show(
        Cursor {
            phase: Phase::Follow,
            pred: node,
            ..c
        },
        item,
    )
}

// The put takes effect and goes to release.
pub fn commit(c: Cursor, made: u32, answer: Answer) -> Move
    ensures { result ≡ committed c made answer }
{
    Move::Commit(
        Cursor {
            phase: Phase::Release,
            made,
            ..c
        },
        answer,
    )
}

pub fn is_refusal(mv: Move) -> bool
    ensures { result ≡ refuses mv }
{
    matches!(mv, Move::Refuse)
}
