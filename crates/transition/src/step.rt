// The core: one step of one call, in the twenty-one words of its process. Each phase reads what it needs of them.
ghost use Rattle.std.specs.Prelude.{◌≡◌};
ghost use Rattle.model.specs.declared.types.Call.{Call};
ghost use Rattle.model.specs.Phases.{moved, walk_of, read_of, seek_of, follow_of, phase_of, transition_of};
ghost use Rattle.versiontable.specs.Held.{held, SameTables};
ghost use Rattle.phases.specs.Placed.{Placed};
ghost use Rattle.process.specs.ProcessWords.{process_from};

use crate::lawful::lawful;
use following::follow::follow;
use inserting::insert::{link, make};
use locking::lock::{acquire, check, release};
use model::types::{Call, Counts, Cursor, Move, Phase};
use phases::search::{read, seek, walk};
use process::types::Sizes;
use process::words::{call_in, cursor_in, effect_in, preds_in};
use updating::update::update;
use versiontable::memory::Memory;

// The phases that read, each lent of the memory what it reads. They stand apart: the proofs follow a table that is lent to be read
// through a `&Memory`, and not through a `&mut` one.
fn walk_in(call: Call, c: Cursor, tick: u32, memory: &Memory) -> Move
    requires { Placed c memory.now }
    ensures { result ≡ walk_of call c tick (held memory.now) }
{
    walk(call, c, tick, memory.counts.nodes, memory.nodes)
}

fn read_in(c: Cursor, tick: u32, memory: &Memory) -> Move
    requires { Placed c memory.now }
    ensures { (call : Call) → result ≡ read_of call c tick (held memory.now) }
{
    let Counts { nodes, versions } = memory.counts;
    read(c, tick, nodes, versions, memory.nodes, memory.versions)
}

fn seek_in(call: Call, c: Cursor, memory: &Memory) -> Move
    requires { Placed c memory.now }
    ensures { result ≡ seek_of call c (held memory.now) }
{
    seek(call, c, memory.counts.nodes, memory.nodes)
}

fn follow_in(call: Call, c: Cursor, memory: &Memory) -> Move
    requires { Placed c memory.now }
    ensures { result ≡ follow_of call c (held memory.now) }
{
    follow(call, c, memory.counts, memory.nodes, memory.versions)
}

// The step of the call's phase: the match that document 01 asks for.
#[tactic(auto, unfolding(model::specs::Phases::phase_of))]
fn by_phase(w: &[u32; Sizes::PROCESS], holder: u32, tick: u32, memory: &mut Memory) -> Move
    requires { Placed (process_from w.now).cursor memory.old }
    ensures moved { moved (held memory.new) result
        ≡ phase_of (process_from w.now).cursor.phase holder tick (process_from w.now) (held memory.old) }
    ensures tables { SameTables memory.old memory.new }
{
    let c = cursor_in(w);
    let used = memory.counts.nodes;
    match c.phase {
        Phase::Walk => walk_in(call_in(w), c, tick, memory),
        Phase::Read => read_in(c, tick, memory),
        Phase::Seek => seek_in(call_in(w), c, memory),
        Phase::Lock => acquire(c, holder, memory.nodes),
        Phase::Check => check(call_in(w), c, used, memory.nodes),
        Phase::Update => update(call_in(w), c, memory),
        Phase::Make => make(call_in(w), c, memory),
        Phase::Link => link(c, used, memory.nodes),
        Phase::Release => {
            let (e, preds) = (effect_in(w), preds_in(w));
            release(call_in(w), c, e, used, preds, memory.nodes)
        }
        Phase::Follow => follow_in(call_in(w), c, memory),
    }
}

// One step of a call: `holder` is the process's number plus 1, `tick` that of this event.
#[tactic(auto, unfolding(model::specs::Phases::transition_of))]
pub fn transition(w: &[u32; Sizes::PROCESS], holder: u32, tick: u32, memory: &mut Memory) -> Move
    ensures moved { moved (held memory.new) result
        ≡ transition_of holder tick (process_from w.now) (held memory.old) }
    ensures tables { SameTables memory.old memory.new }
{
    if !lawful(call_in(w), cursor_in(w), effect_in(w), memory.counts.nodes) {
        return Move::Refuse;
    }
    by_phase(w, holder, tick, memory)
}
