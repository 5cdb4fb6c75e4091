// The store's calls that a sheet makes, each on the tables in its buffers.
ghost use Rattle.std.specs.Prelude.{◌≡◌};
ghost use Rattle.model.specs.Requests.{put, get};
ghost use Rattle.decoder.specs.declared.types.Command.TheVariants.{Open, Step};
ghost use Rattle.buffers.specs.Session.{session, done, opened_tally, started, start_on, look_on, inspect_on, call_on};

use crate::lend::{asked, table_words, tables};
use crate::types::Performed;
use inspection::inspect::inspect;
use lines::outcome::{of_inspect, of_look, of_open, of_start, of_step};
use model::types::{Key, Opening, StartResult, State};
use printer::types::Line;
use queries::look::look;
use store::open::open;
use store::start::{start_get, start_put};
use storestep::step::step;

// A store that is opened counts from zero.
fn clear_tally(outcome: Opening, tally: &mut [u32])
    ensures { tally.new ≡ opened_tally outcome tally.old }
{
    if outcome.is_ok() {
        tally.fill(0);
    }
}

// An opening is lent tables of the size that it asks for, not those that the state has: each open replaces the store.
#[tactic(auto, unfolding(crate::specs::Session::call_on, crate::specs::Session::open_on))]
pub fn open_on(
    s: State,
    keys: u32,
    count: u32,
    processes: u32,
    limit: u32,
    nodes: &mut [u32],
    versions: &mut [u32],
    tally: &mut [u32],
) -> Performed
    ensures { done result nodes.new versions.new tally.new
        ≡ call_on (session s nodes.old versions.old tally.old)
        (Open keys count processes limit) }
{
    let n = asked(nodes, State::NODE_WORDS, keys);
    let m = asked(versions, State::VERSION_WORDS, count);
    let r = open(&mut nodes[..n], &mut versions[..m], processes, limit);
    clear_tally(r.outcome, tally);
    Performed {
        line: of_open(keys, count, processes, limit, r.outcome),
        state: r.state,
    }
}

// The line and the state of a start.
fn started(process: u32, r: StartResult) -> Performed
    ensures { result ≡ started process r }
{
    Performed {
        line: of_start(process, r.outcome),
        state: r.state,
    }
}

// A start reads the buffers and writes none of them, so that it is lent them as they are.
pub fn put_on(
    s: State,
    process: u32,
    key: Key,
    value: u32,
    timestamp: u32,
    draw: u16,
    nodes: &[u32],
    versions: &[u32],
) -> Performed
    ensures { result
        ≡ start_on s nodes.now versions.now process (put key value timestamp draw) }
{
    let (nodes, versions) = tables(s.lengths, nodes, versions);
    let r = start_put(s, nodes, versions, process, key, value, timestamp, draw);
    started(process, r)
}

// As a put, with no reading and no draw.
pub fn get_on(s: State, process: u32, key: Key, nodes: &[u32], versions: &[u32]) -> Performed
    ensures { result ≡ start_on s nodes.now versions.now process (get key) }
{
    let (nodes, versions) = tables(s.lengths, nodes, versions);
    let r = start_get(s, nodes, versions, process, key);
    started(process, r)
}

// What a step leaves of the tables stands at the start of the buffers again: the words behind them are not lent. Lent to be written, they are
// not cut by `tables`.
#[tactic(auto, unfolding(crate::specs::Session::call_on))]
pub fn step_on(
    s: State,
    process: u32,
    nodes: &mut [u32],
    versions: &mut [u32],
    tally: &mut [u32],
) -> Performed
    ensures { done result nodes.new versions.new tally.new
        ≡ call_on (session s nodes.old versions.old tally.old) (Step process) }
{
    let n = table_words(nodes, s.lengths.nodes);
    let m = table_words(versions, s.lengths.versions);
    let r = step(s, process, &mut nodes[..n], &mut versions[..m], tally);
    Performed {
        line: of_step(process, r.outcome),
        state: r.state,
    }
}

// Its line names the key and the place that were asked for, so it takes them beside the outcome.
pub fn look_on(s: State, key: Key, back: u32, nodes: &[u32], versions: &[u32]) -> Line
    ensures { result ≡ look_on s nodes.now versions.now key back }
{
    let (nodes, versions) = tables(s.lengths, nodes, versions);
    of_look(key, back, look(s, nodes, versions, key, back))
}

// Gives a line alone, as a look does: the state after it is the one before it.
pub fn inspect_on(s: State, nodes: &[u32], versions: &[u32]) -> Line
    ensures { result ≡ inspect_on s nodes.now versions.now }
{
    let (nodes, versions) = tables(s.lengths, nodes, versions);
    of_inspect(inspect(s, nodes, versions))
}
