// Starts of a put, of a get and of a scan.
ghost use Rattle.std.specs.Prelude.{◌≡◌};
ghost use Rattle.model.specs.Requests.{put, get, scan};
ghost use Rattle.model.specs.Calls.{start_of};
ghost use Rattle.store.specs.Clauses.{timed, start_with};

use calls::begin::{begin, top_of};
use calls::slot::slot;
use layout::head::header_of;
use model::types::{Answered, Call, Key, Kind, StartResult, State};
use refusals::permit::start_permit;

// What all starts share. `asked` is the call but for its tick, which a start has only where it is let pass.
fn start(mut s: State, nodes: &[u32], versions: &[u32], process: u32, asked: Call) -> StartResult
    ensures { result ≡ start_with s nodes.now versions.now process (timed asked) }
{
    let i = slot(process);
    let running = s.process[i].call.kind;
    let h = header_of(s);
    match start_permit(&h, running, nodes, versions, process, asked.key, asked.last) {
        Err(refusal) => Answered {
            outcome: Err(refusal),
            state: s,
        },
        Ok(()) => {
            let tick = s.events + 1;
            s.process[i] = begin(Call {
                start: tick,
                ..asked
            });
            s.events = tick;
            Answered {
                outcome: Ok(tick),
                state: s,
            }
        }
    }
}

// The three starts, here as in lentstart, are document 01's calls, each with its own operands.

// A start reads the tables only for their lengths, and takes the top level from the draw at once, so that no draw is kept.
#[tactic(auto, unfolding(model::specs::Calls::start_of, model::specs::Calls::call_for))]
pub fn start_put(
    s: State,
    nodes: &[u32],
    versions: &[u32],
    process: u32,
    key: Key,
    value: u32,
    timestamp: u32,
    draw: u16,
) -> StartResult
    ensures { result ≡ start_of s nodes.now versions.now process (put key value timestamp draw) }
{
    let asked = Call {
        kind: Kind::Put,
        key,
        last: key,
        value,
        timestamp,
        top: top_of(draw),
        ..Call::default()
    };
    start(s, nodes, versions, process, asked)
}

// A get keeps the record of a put, with what it does not use at 0.
#[tactic(auto, unfolding(model::specs::Calls::start_of, model::specs::Calls::call_for))]
pub fn start_get(s: State, nodes: &[u32], versions: &[u32], process: u32, key: Key) -> StartResult
    ensures { result ≡ start_of s nodes.now versions.now process (get key) }
{
    let asked = Call {
        kind: Kind::Get,
        key,
        last: key,
        ..Call::default()
    };
    start(s, nodes, versions, process, asked)
}

// A scan of the keys from the first to the last.
#[tactic(auto, unfolding(model::specs::Calls::start_of, model::specs::Calls::call_for))]
pub fn start_scan(
    s: State,
    nodes: &[u32],
    versions: &[u32],
    process: u32,
    first: Key,
    last: Key,
) -> StartResult
    ensures { result ≡ start_of s nodes.now versions.now process (scan first last) }
{
    let asked = Call {
        kind: Kind::Scan,
        key: first,
        last,
        ..Call::default()
    };
    start(s, nodes, versions, process, asked)
}
