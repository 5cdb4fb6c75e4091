// Refusal 11 "at any step": what the process alone shows.
ghost use Rattle.std.specs.Prelude.{◌≡◌, List, ◌||◌, ℕ};
ghost use Rattle.model.specs.Phases.{no_effect, lawful_effect, lawful_at, lawful_process};
ghost use Rattle.model.specs.Roles.{from_put};
ghost use Rattle.tables.specs.Room.{nodes_in};
ghost use Rattle.transition.specs.Process.{process};

use model::types::{Call, Cursor, Effect, Kind, Role, State};
use values::roles::{from_put, plays, role_of};

// Where a put has taken effect, its answer is a put's.
fn suits_put(e: Effect) -> bool
    ensures { result ≡ (no_effect e || from_put e.answer) }
{
    e.tick == 0 || from_put(e.answer)
}

// Only a put has an effect before its end, and at release it has its answer.
fn lawful_effect(kind: Kind, role: Role, e: Effect) -> bool
    ensures { result ≡ lawful_effect kind role e }
{
    match role {
        Role::Searching if kind == Kind::Put => suits_put(e),
        Role::Searching | Role::Reading | Role::Following => e.tick == 0,
        Role::Writing => suits_put(e),
        Role::Releasing => from_put(e.answer),
    }
}

#[tactic(auto, unfolding(model::specs::Phases::lawful_at))]
fn lawful_at(kind: Kind, role: Role, e: Effect) -> bool
    ensures { result ≡ lawful_at kind role e }
{
    plays(kind, role) && lawful_effect(kind, role, e)
}

// `used` is the last node in use. Left at the first fault: every step asks this, and takes 2 instructions more where `&&` joins the tests.
#[tactic(auto, unfolding(model::specs::Phases::lawful_process))]
pub fn lawful(call: Call, c: Cursor, e: Effect, used: u32) -> bool
    ensures { (preds nodes versions : List ℕ) (n : ℕ) → result ≡ lawful_process (process call c e preds) (nodes_in nodes used versions n) }
{
    if State::TOP < c.level {
        return false;
    }
    if used < c.pred {
        return false;
    }
    lawful_at(call.kind, role_of(c.phase), e)
}
