// Starts of a put, of a get and of a scan: the process's words and the count of events are written.
ghost use Rattle.std.specs.Prelude.{◌≡◌, ◌+◌, ◌≤◌};
ghost use Rattle.process.specs.ProcessWords.{sizes};
ghost use Rattle.model.specs.Requests.{put, get, scan};
ghost use Rattle.store.specs.Clauses.{timed};
ghost use Rattle.lent.specs.Calls.{started_in, start_with_in, begun_in, start_in};

use calls::begin::{begin, top_of};
use calls::slot::slot;
use layout::head::HeadOffsets;
use layout::state::{counts_in, is_state_at, put_event};
use model::types::{Call, Key, Kind, Refusal, Starting};
use numbers::numbered::Numbered;
use process::types::{ProcessOffsets, Sizes};
use process::words::words_of;
use refusals::permit::start_permit;

// The words of the process that stand at `at`, and the event: the counts in use are written back as they were. `at` is where `start_in` has
// read the kind, so that the place is reckoned once.
fn begin_in(words: &mut [u32; Sizes::STATE], at: usize, call: Call)
    requires { at + sizes.process ≤ sizes.state }
    ensures { words.new ≡ begun_in words.old at call }
{
    let end = at + Sizes::PROCESS;
    let tick = call.start;
    let counts = counts_in(words);
    words[at..end].copy_from_slice(&words_of(begin(call)));
    put_event(words, tick, counts);
}

// What all starts share. `asked` is the call but for its tick, which a start has only where it is let pass.
fn start_in(
    words: &mut [u32],
    nodes: &[u32],
    versions: &[u32],
    process: u32,
    asked: Call,
) -> Starting
    ensures { started_in result words.new
        ≡ start_with_in words.old nodes.now versions.now process (timed asked) }
{
    let Some(words) = words.as_mut_array() else {
        return Err(Refusal::Corrupt);
    };
    if !is_state_at(words, process) {
        return Err(Refusal::Corrupt);
    }
    let at = Sizes::HEAD + Sizes::PROCESS * slot(process);
    let running = Kind::from_number(words[at + ProcessOffsets::KIND]);
    let header = &words[HeadOffsets::HEADER..Sizes::HEAD];
    start_permit(
        header, running, nodes, versions, process, asked.key, asked.last,
    )?;
    let tick = words[HeadOffsets::EVENTS] + 1;
    let call = Call {
        start: tick,
        ..asked
    };
    begin_in(words, at, call);
    Ok(tick)
}

// The three starts, as in store: document 01's calls, each with its own operands.

// A start reads the tables only for their lengths, and takes the top level from the draw at once, so that no draw is kept.
#[tactic(auto, unfolding(lent::specs::Calls::start_in, model::specs::Calls::call_for, model::specs::Calls::start_of))]
pub fn start_put_in(
    words: &mut [u32],
    nodes: &[u32],
    versions: &[u32],
    process: u32,
    key: Key,
    value: u32,
    timestamp: u32,
    draw: u16,
) -> Starting
    ensures { started_in result words.new
        ≡ start_in words.old nodes.now versions.now process (put key value timestamp draw) }
{
    let asked = Call {
        kind: Kind::Put,
        key,
        last: key,
        value,
        timestamp,
        top: top_of(draw),
        ..Call::default()
    };
    start_in(words, nodes, versions, process, asked)
}

// A get keeps the record of a put, with what it does not use at 0.
#[tactic(auto, unfolding(lent::specs::Calls::start_in, model::specs::Calls::call_for, model::specs::Calls::start_of))]
pub fn start_get_in(
    words: &mut [u32],
    nodes: &[u32],
    versions: &[u32],
    process: u32,
    key: Key,
) -> Starting
    ensures { started_in result words.new
        ≡ start_in words.old nodes.now versions.now process (get key) }
{
    let asked = Call {
        kind: Kind::Get,
        key,
        last: key,
        ..Call::default()
    };
    start_in(words, nodes, versions, process, asked)
}

// A scan of the keys from the first to the last.
#[tactic(auto, unfolding(lent::specs::Calls::start_in, model::specs::Calls::call_for, model::specs::Calls::start_of))]
pub fn start_scan_in(
    words: &mut [u32],
    nodes: &[u32],
    versions: &[u32],
    process: u32,
    first: Key,
    last: Key,
) -> Starting
    ensures { started_in result words.new
        ≡ start_in words.old nodes.now versions.now process (scan first last) }
{
    let asked = Call {
        kind: Kind::Scan,
        key: first,
        last,
        ..Call::default()
    };
    start_in(words, nodes, versions, process, asked)
}
