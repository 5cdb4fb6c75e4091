// Lock, check and release: the steps that take and free a lock. They are lent the node table alone, where a `Memory` would ask for
// both: docs/TRACE.md names each of them.
ghost use Rattle.std.specs.Prelude.{◌≡◌, List, ℕ};
ghost use Rattle.model.specs.declared.types.Counts.{Counts};
ghost use Rattle.model.specs.Phases.{moved, lock_of, checked, check_of, rise, released, release_of};
ghost use Rattle.tables.specs.Room.{LevelRoom, memory, nodes_in};
ghost use Rattle.phases.specs.Ready.{Ready};

use model::types::{Ahead, Call, Cursor, Effect, Move, Phase, State, Version};
use phases::moves::{go, is_refusal};
use tables::nodes::{ahead, lock_at, set_lock};
use values::roles::{is_new, version_with};

// The lock phase.
#[tactic(auto, unfolding(model::specs::Phases::lock_of))]
pub fn acquire(c: Cursor, holder: u32, nodes: &mut [u32]) -> Move
    requires { LevelRoom nodes.old c.level c.pred }
    ensures { (versions : List ℕ) (counts : Counts) → moved (memory nodes.new versions counts) result
        ≡ lock_of c holder (memory nodes.old versions counts) }
{
    if lock_at(nodes, c.level, c.pred) != 0 {
        return Move::Wait;
    }
    set_lock(nodes, c.level, c.pred, holder);
    go(c, Phase::Check, c.level, c.pred)
}

// The place is right: on to the phase given at level 0, to link above it.
fn settle(c: Cursor, bottom: Phase) -> Move
    ensures { result ≡ checked c bottom }
{
    let phase = if c.level == 0 { bottom } else { Phase::Link };
    go(c, phase, c.level, c.pred)
}

#[tactic(auto, unfolding(model::specs::Phases::check_by, model::specs::Phases::check_of))]
pub fn check(call: Call, c: Cursor, used: u32, nodes: &mut [u32]) -> Move
    requires { Ready nodes.old used c }
    ensures { (versions : List ℕ) (n : ℕ) → moved (nodes_in nodes.new used versions n) result
        ≡ check_of call c (nodes_in nodes.old used versions n) }
{
    match ahead(nodes, used, c.level, c.pred, call.key) {
        Ahead::Unused => Move::Refuse,
        Ahead::Less(y) => {
            set_lock(nodes, c.level, c.pred, 0);
            go(c, Phase::Seek, c.level, y)
        }
        Ahead::Equal(_) => settle(c, Phase::Update),
        Ahead::Past => settle(c, Phase::Make),
    }
}

// One level up, at the node remembered there.
#[tactic(auto, unfolding(model::specs::Phases::rise))]
fn rise(call: Call, c: Cursor, used: u32, preds: [u32; State::LEVELS], otherwise: Move) -> Move
    ensures { (nodes versions : List ℕ) (n : ℕ) → result ≡ rise call c preds (nodes_in nodes used versions n) otherwise }
{
    if State::TOP < call.top {
        return Move::Refuse;
    }
    if call.top <= c.level {
        return otherwise;
    }
    let up = c.level + 1;
    let pred = preds[up as usize];
    if used < pred {
        return Move::Refuse;
    }
    go(c, Phase::Seek, up, pred)
}

#[tactic(auto, unfolding(model::specs::Phases::released))]
fn released(call: Call, c: Cursor, e: Effect, used: u32, preds: [u32; State::LEVELS]) -> Move
    ensures { (nodes versions : List ℕ) (n : ℕ) → result ≡ released call c e preds (nodes_in nodes used versions n) }
{
    let own = Version {
        value: call.value,
        timestamp: call.timestamp,
    };
    let end = Move::End(e.answer, version_with(e.answer, own), e.tick);
    if is_new(e.answer) {
        rise(call, c, used, preds, end)
    } else {
        end
    }
}

// The lock is freed, unless the step is refused.
#[tactic(auto, unfolding(model::specs::Phases::freed, model::specs::Phases::release_of))]
pub fn release(
    call: Call,
    c: Cursor,
    e: Effect,
    used: u32,
    preds: [u32; State::LEVELS],
    nodes: &mut [u32],
) -> Move
    requires { LevelRoom nodes.old c.level c.pred }
    ensures { (versions : List ℕ) (n : ℕ) → moved (nodes_in nodes.new used versions n) result
        ≡ release_of call c e preds (nodes_in nodes.old used versions n) }
{
    let m = released(call, c, e, used, preds);
    if is_refusal(m) {
        return m;
    }
    set_lock(nodes, c.level, c.pred, 0);
    m
}
