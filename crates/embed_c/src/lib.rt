// The archive that C links (include/tray_store.h): each export is the function of that name in `embed`, with its clauses. A static library
// is no library of other crates, so the two stand apart.
#![tactic(auto)]

ghost use Rattle.std.specs.Prelude.{◌≡◌, [], ◌∷◌};
ghost use Rattle.model.specs.Layout.{limits};
ghost use Rattle.model.specs.Requests.{put, get, scan};
ghost use Rattle.process.specs.ProcessWords.{sizes};
ghost use Rattle.replies.specs.Told.{reply};
ghost use Rattle.embed.specs.Calls.{tray_node_words, tray_reading_words, tray_look, tray_inspect, tray_standing};
ghost use Rattle.embed.specs.Calls.{tray_opened, tray_open, tray_started, tray_start, tray_stepped, tray_step};

use model::types::Key;
use replies::told::{INSPECT_WORDS, LOOK_WORDS, STATUS_WORDS, STEP_WORDS};

#[unsafe(no_mangle)]
pub extern "C" fn tray_version() -> u32
    ensures { result ≡ sizes.version }
{
    embed::tray_version()
}

#[unsafe(no_mangle)]
pub extern "C" fn tray_state_words() -> usize
    ensures { result ≡ sizes.state }
{
    embed::tray_state_words()
}

#[unsafe(no_mangle)]
pub extern "C" fn tray_tally_words() -> usize
    ensures { result ≡ limits.tally }
{
    embed::tray_tally_words()
}

#[unsafe(no_mangle)]
pub extern "C" fn tray_node_words(trays: u32) -> usize
    ensures { result ≡ tray_node_words trays }
{
    embed::tray_node_words(trays)
}

#[unsafe(no_mangle)]
pub extern "C" fn tray_reading_words(readings: u32) -> usize
    ensures { result ≡ tray_reading_words readings }
{
    embed::tray_reading_words(readings)
}

#[unsafe(no_mangle)]
pub extern "C" fn tray_open(
    state: &mut [u32],
    nodes: &mut [u32],
    readings: &mut [u32],
    stations: u32,
    limit: u32,
) -> u32
    ensures { tray_opened result state.new nodes.new readings.new
        ≡ tray_open state.old nodes.old readings.old stations limit }
{
    embed::tray_open(state, nodes, readings, stations, limit)
}

#[unsafe(no_mangle)]
pub extern "C" fn tray_start_put(
    state: &mut [u32],
    nodes: &[u32],
    readings: &[u32],
    station: u32,
    tray: Key,
    value: u32,
    stamp: u32,
    draw: u16,
    tick: &mut u32,
) -> u32
    ensures { tray_started (reply result (tick.new ∷ [])) state.new
        ≡ tray_start state.old nodes.now readings.now station (put tray value stamp draw) }
{
    embed::tray_start_put(
        state, nodes, readings, station, tray, value, stamp, draw, tick,
    )
}

#[unsafe(no_mangle)]
pub extern "C" fn tray_start_get(
    state: &mut [u32],
    nodes: &[u32],
    readings: &[u32],
    station: u32,
    tray: Key,
    tick: &mut u32,
) -> u32
    ensures { tray_started (reply result (tick.new ∷ [])) state.new
        ≡ tray_start state.old nodes.now readings.now station (get tray) }
{
    embed::tray_start_get(state, nodes, readings, station, tray, tick)
}

#[unsafe(no_mangle)]
pub extern "C" fn tray_start_sweep(
    state: &mut [u32],
    nodes: &[u32],
    readings: &[u32],
    station: u32,
    first: Key,
    last: Key,
    tick: &mut u32,
) -> u32
    ensures { tray_started (reply result (tick.new ∷ [])) state.new
        ≡ tray_start state.old nodes.now readings.now station (scan first last) }
{
    embed::tray_start_sweep(state, nodes, readings, station, first, last, tick)
}

#[unsafe(no_mangle)]
pub extern "C" fn tray_step(
    state: &mut [u32],
    nodes: &mut [u32],
    readings: &mut [u32],
    tally: &mut [u32],
    station: u32,
    answer: &mut [u32; STEP_WORDS],
) -> u32
    ensures { tray_stepped (reply result answer.new)
        state.new nodes.new readings.new tally.new
        ≡ tray_step state.old nodes.old readings.old tally.old station }
{
    embed::tray_step(state, nodes, readings, tally, station, answer)
}

#[unsafe(no_mangle)]
pub extern "C" fn tray_look(
    state: &[u32],
    nodes: &[u32],
    readings: &[u32],
    tray: Key,
    back: u32,
    answer: &mut [u32; LOOK_WORDS],
) -> u32
    ensures { reply result answer.new
        ≡ tray_look state.now nodes.now readings.now tray back }
{
    embed::tray_look(state, nodes, readings, tray, back, answer)
}

#[unsafe(no_mangle)]
pub extern "C" fn tray_inspect(
    state: &[u32],
    nodes: &[u32],
    readings: &[u32],
    answer: &mut [u32; INSPECT_WORDS],
) -> u32
    ensures { reply result answer.new
        ≡ tray_inspect state.now nodes.now readings.now }
{
    embed::tray_inspect(state, nodes, readings, answer)
}

#[unsafe(no_mangle)]
pub extern "C" fn tray_standing(
    state: &[u32],
    station: u32,
    answer: &mut [u32; STATUS_WORDS],
) -> u32
    ensures { reply result answer.new ≡ tray_standing state.now station }
{
    embed::tray_standing(state, station, answer)
}
