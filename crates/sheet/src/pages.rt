// Rounds: more bytes where they are needed, a page of lines of what is held, and the page is written.
ghost use Rattle.std.specs.Prelude.{◌≤◌, true, ◌≡◌, length};
ghost use Rattle.decoder.specs.Commands.{longest_command};
ghost use Rattle.sheet.specs.Runs.{InBuffer, Ready, Supplied, first_run, memory, first_memory, played_of};
ghost use Rattle.sheet.specs.Runs.{Supplies, Plays, Runs, Lends};

use crate::input::refill;
use crate::retry::write;
use crate::types::Run;
use interpreter::play::play;
use interpreter::types::{Needs, Played};
use model::types::State;

// Plays what is held, on an empty page.
fn play_page(
    r: Run,
    bytes: &[u8],
    nodes: &mut [u32],
    versions: &mut [u32],
    tally: &mut [u32],
    out: &mut [u8],
) -> Run
    requires in_buffer { InBuffer r (length bytes.now) }
    requires longest_command_in_bounds { longest_command ≤ length bytes.now }
    ensures plays { memory result bytes.now nodes.new versions.new tally.new out.new
        ≡ played_of
        (memory r bytes.now nodes.old versions.old tally.old out.old) true }
    ensures ready { Ready result (length bytes.now) }
    ensures next_in_bounds { result.next ≤ length out.old }
{
    // Each field is said, as in `first`.
    let start = Played {
        state: r.state,
        read: 0,
        next: 0,
        needs: Needs::Nothing,
    };
    let held = &bytes[r.from..r.end];
    let p = play(start, held, r.ended, nodes, versions, tally, out);
    Run {
        state: p.state,
        from: r.from + p.read,
        next: p.next,
        needs: p.needs,
        ..r
    }
}

// More bytes, where they are needed. That none are then (`Supplied`) is a clause: it holds of half a round, and a type of its own would be
// made here and taken apart in `print_page`.
fn supply(rt: &HostRuntime, r: Run, bytes: &mut [u8]) -> Run
    requires { Ready r (length bytes.old) }
    ensures ready { Ready result (length bytes.old) }
    ensures supplied { Supplied result }
    ensures supplies { Supplies r result bytes.old bytes.new }
{
    if r.needs == Needs::Bytes {
        return refill(rt, r, bytes);
    }
    r
}

// A page of what can be played, and its lines written. A write that fails ends the run.
fn print_page(
    rt: &HostRuntime,
    r: Run,
    bytes: &[u8],
    nodes: &mut [u32],
    versions: &mut [u32],
    tally: &mut [u32],
    out: &mut [u8],
) -> Run
    requires in_buffer { InBuffer r (length bytes.now) }
    requires supplied { Supplied r }
    requires longest_command_in_bounds { longest_command ≤ length bytes.now }
    ensures ready { Ready result (length bytes.now) }
    ensures plays { Plays
        (memory r bytes.now nodes.old versions.old tally.old out.old)
        (memory result bytes.now nodes.new versions.new tally.new out.new) }
{
    let q = play_page(r, bytes, nodes, versions, tally, out);
    if write(rt, &out[..q.next]).is_err() {
        return Run {
            needs: Needs::Over,
            ..q
        };
    }
    q
}

// Nothing is read yet. Each field is said: a Default would not show that the state is closed.
fn first() -> Run
    ensures { result ≡ first_run }
{
    Run {
        state: State::closed(),
        from: 0,
        end: 0,
        ended: false,
        next: 0,
        needs: Needs::Bytes,
    }
}

// Round after round, until the run is over. The buffers may be of any lengths that have room (`longest_command`, `Lends`): an array's type
// would ask for one. A proved loop has to end, so it counts its rounds up to a number that no
// run reaches.
pub fn run(
    rt: &HostRuntime,
    bytes: &mut [u8],
    nodes: &mut [u32],
    versions: &mut [u32],
    tally: &mut [u32],
    out: &mut [u8],
) -> Run
    requires longest_command_in_bounds { longest_command ≤ length bytes.old }
    requires lends { Lends nodes.old versions.old tally.old out.old }
    ensures { Runs
        (first_memory bytes.old nodes.old versions.old tally.old out.old)
        (memory result bytes.new nodes.new versions.new tally.new out.new) }
{
    let mut at = first();
    for _ in 0..u64::MAX {
        at = supply(rt, at, bytes);
        if at.needs == Needs::Over {
            return at;
        }
        at = print_page(rt, at, bytes, nodes, versions, tally, out);
    }
    at
}
