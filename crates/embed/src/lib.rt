// The calls of include/tray_store.h: numbers and lent words in, a number and answer words out. The parameters are named as the
// header names them. Whatever the words hold, no call asks anything of them, and each tests those that it uses. `embed_c` exports
// each to C under its name here.
#![tactic(auto)]

ghost use Rattle.std.specs.Prelude.{◌≡◌, ◌≤◌, ◌*◌, suc, if◌then◌else◌, [], ◌∷◌};
ghost use Rattle.model.specs.Layout.{limits};
ghost use Rattle.model.specs.State.{within};
ghost use Rattle.model.specs.Requests.{put, get, scan};
ghost use Rattle.process.specs.ProcessWords.{sizes};
ghost use Rattle.replies.specs.Told.{reply};
ghost use Rattle.embed.specs.Calls.{tray_node_words, tray_reading_words, tray_look, tray_inspect, tray_standing};
ghost use Rattle.embed.specs.Calls.{tray_opened, tray_open, tray_started, tray_start, tray_stepped, tray_step};

use lent::open::open_in;
use lent::query::{inspect_in, look_in, status_in};
use lentstart::start::{start_get_in, start_put_in, start_scan_in};
use lentstep::step::step_in;
use model::types::{Key, State};
use process::types::Sizes;
use replies::told::{
    INSPECT_WORDS, LOOK_WORDS, STATUS_WORDS, STEP_WORDS, tell_inspect, tell_look, tell_open,
    tell_start, tell_status, tell_step,
};
use values::bounds::within;

// The number of the layout, for a caller that compares its header with what it is linked with.
pub fn tray_version() -> u32
    ensures { result ≡ sizes.version }
{
    Sizes::VERSION
}

// How many words to lend for a state, for a caller that takes its sizes at run time.
pub fn tray_state_words() -> usize
    ensures { result ≡ sizes.state }
{
    Sizes::STATE
}

// A count for each answer that a put or a get can end with.
pub fn tray_tally_words() -> usize
    ensures { result ≡ limits.tally }
{
    State::TALLY as usize
}

// One entry more than asked for, each of so many words; 0 where so many are too many or none, since C has no Option.
fn table_words(words: u32, most: u32, entries: u32) -> usize
    requires most { most ≤ limits.versions }
    requires fits { words * suc most ≤ 4294967295 }
    ensures { result ≡ if within 1 most entries then words * suc entries else 0 }
{
    if within(1, most, entries) {
        (words * (entries + 1)) as usize
    } else {
        0
    }
}

// One node more than trays, for the head. No table has 0 words, so 0 tells that there is none for so many.
#[tactic(auto, unfolding(crate::specs::Calls::tray_node_words))]
pub fn tray_node_words(trays: u32) -> usize
    ensures { result ≡ tray_node_words trays }
{
    table_words(State::NODE_WORDS, State::NODES, trays)
}

// One place more than readings: place 0 is none. Again 0 where there is no such table.
#[tactic(auto, unfolding(crate::specs::Calls::tray_reading_words))]
pub fn tray_reading_words(readings: u32) -> usize
    ensures { result ≡ tray_reading_words readings }
{
    table_words(State::VERSION_WORDS, State::VERSIONS, readings)
}

// Refused 1 to 4 it leaves a closed state, so that no call goes on with what stood there.
pub fn tray_open(
    state: &mut [u32],
    nodes: &mut [u32],
    readings: &mut [u32],
    stations: u32,
    limit: u32,
) -> u32
    ensures { tray_opened result state.new nodes.new readings.new
        ≡ tray_open state.old nodes.old readings.old stations limit }
{
    tell_open(open_in(state, nodes, readings, stations, limit))
}

// The three starts are those of the header, each with its own parameters.

// No step is taken yet. The tables are lent for their lengths alone, which are to be those in the state.
pub fn tray_start_put(
    state: &mut [u32],
    nodes: &[u32],
    readings: &[u32],
    station: u32,
    tray: Key,
    value: u32,
    stamp: u32,
    draw: u16,
    tick: &mut u32,
) -> u32
    ensures { tray_started (reply result (tick.new ∷ [])) state.new
        ≡ tray_start state.old nodes.now readings.now station (put tray value stamp draw) }
{
    tell_start(
        start_put_in(state, nodes, readings, station, tray, value, stamp, draw),
        tick,
    )
}

// As a put is started, with no reading and no draw.
pub fn tray_start_get(
    state: &mut [u32],
    nodes: &[u32],
    readings: &[u32],
    station: u32,
    tray: Key,
    tick: &mut u32,
) -> u32
    ensures { tray_started (reply result (tick.new ∷ [])) state.new
        ≡ tray_start state.old nodes.now readings.now station (get tray) }
{
    tell_start(start_get_in(state, nodes, readings, station, tray), tick)
}

// As a get is started, for all trays from the first number to the last.
pub fn tray_start_sweep(
    state: &mut [u32],
    nodes: &[u32],
    readings: &[u32],
    station: u32,
    first: Key,
    last: Key,
    tick: &mut u32,
) -> u32
    ensures { tray_started (reply result (tick.new ∷ [])) state.new
        ≡ tray_start state.old nodes.now readings.now station (scan first last) }
{
    tell_start(
        start_scan_in(state, nodes, readings, station, first, last),
        tick,
    )
}

// Its time is bounded whatever the store holds.
pub fn tray_step(
    state: &mut [u32],
    nodes: &mut [u32],
    readings: &mut [u32],
    tally: &mut [u32],
    station: u32,
    answer: &mut [u32; STEP_WORDS],
) -> u32
    ensures { tray_stepped (reply result answer.new)
        state.new nodes.new readings.new tally.new
        ≡ tray_step state.old nodes.old readings.old tally.old station }
{
    tell_step(step_in(state, station, nodes, readings, tally), answer)
}

// Needs no station and is no event: a display may look while calls run.
#[tactic(auto, unfolding(crate::specs::Calls::tray_look))]
pub fn tray_look(
    state: &[u32],
    nodes: &[u32],
    readings: &[u32],
    tray: Key,
    back: u32,
    answer: &mut [u32; LOOK_WORDS],
) -> u32
    ensures { reply result answer.new
        ≡ tray_look state.now nodes.now readings.now tray back }
{
    tell_look(look_in(state, nodes, readings, tray, back), answer)
}

// A fault that is found is an answer; only where the store cannot be inspected is the number not 0.
#[tactic(auto, unfolding(crate::specs::Calls::tray_inspect))]
pub fn tray_inspect(
    state: &[u32],
    nodes: &[u32],
    readings: &[u32],
    answer: &mut [u32; INSPECT_WORDS],
) -> u32
    ensures { reply result answer.new
        ≡ tray_inspect state.now nodes.now readings.now }
{
    tell_inspect(inspect_in(state, nodes, readings), answer)
}

// Is lent no tables: what a station does stands in the state alone.
#[tactic(auto, unfolding(crate::specs::Calls::tray_standing))]
pub fn tray_standing(state: &[u32], station: u32, answer: &mut [u32; STATUS_WORDS]) -> u32
    ensures { reply result answer.new ≡ tray_standing state.now station }
{
    tell_status(status_in(state, station), answer)
}
