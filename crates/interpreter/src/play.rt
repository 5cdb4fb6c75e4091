// Commands one after another.
ghost use Rattle.std.specs.Prelude.{ℕ, ◌≤◌, List, ◌≡◌, length};
ghost use Rattle.interpreter.specs.Playing.{playing, Within, played, ended_by, play_one, play_of};

use crate::types::{Needs, Played};
use decoder::types::Command;
use ending::rest::rest;
use ending::types::Rest;
use executor::perform::perform;
use model::types::Refusal;
use printer::print::has_room;
use printer::types::Line;

// A whole command: it is performed and its line printed, and the next one stands at `read`. Not inlined: else a program has the copies of
// the state that a command takes, six kilobytes, on its stack while a read fails and is told.
#[inline(never)]
fn play_command(
    p: Played,
    command: Command,
    read: usize,
    nodes: &mut [u32],
    versions: &mut [u32],
    tally: &mut [u32],
    out: &mut [u8],
) -> Played
    ensures plays { playing result nodes.new versions.new tally.new out.new
        ≡ played (playing p nodes.old versions.old tally.old out.old) command read }
    ensures next_in_bounds { p.next ≤ length out.old → result.next ≤ length out.old }
{
    let done = perform(p.state, command, nodes, versions, tally);
    let next = done.line.print(out, p.next);
    Played {
        state: done.state,
        read,
        next,
        needs: Needs::Nothing,
    }
}

// The run ends with this refusal as its last line.
fn end(p: Played, refusal: Refusal, out: &mut [u8]) -> Played
    ensures ends { (nodes versions tally : List ℕ)
        → playing result nodes versions tally out.new ≡ ended_by (playing p nodes versions tally out.old) refusal }
    ensures next_in_bounds { p.next ≤ length out.old → result.next ≤ length out.old }
{
    let next = Line::Refused(refusal).print(out, p.next);
    Played {
        next,
        needs: Needs::Over,
        ..p
    }
}

fn play_one(
    p: Played,
    bytes: &[u8],
    ended: bool,
    nodes: &mut [u32],
    versions: &mut [u32],
    tally: &mut [u32],
    out: &mut [u8],
) -> Played
    ensures plays { playing result nodes.new versions.new tally.new out.new
        ≡ play_one bytes.now ended
        (playing p nodes.old versions.old tally.old out.old) }
    ensures within { Within p bytes.now out.old → Within result bytes.now out.old }
{
    if !has_room(out, p.next) {
        return Played {
            needs: Needs::Page,
            ..p
        };
    }
    match rest(bytes, p.read, ended) {
        Rest::Next(command, count) => {
            let read = p.read + count;
            play_command(p, command, read, nodes, versions, tally, out)
        }
        Rest::More => Played {
            needs: Needs::Bytes,
            ..p
        },
        Rest::Over => Played {
            needs: Needs::Over,
            ..p
        },
        Rest::Ends(refusal) => end(p, refusal, out),
    }
}

// All commands that can be played: those that stand whole in `bytes` from `p.read` on, while `out` has room for a line from
// `p.next` on; where the run ends with a refusal, its line too. `ended` tells whether the sheet has no more bytes than these.
pub fn play(
    p: Played,
    bytes: &[u8],
    ended: bool,
    nodes: &mut [u32],
    versions: &mut [u32],
    tally: &mut [u32],
    out: &mut [u8],
) -> Played
    ensures plays { playing result nodes.new versions.new tally.new out.new
        ≡ play_of bytes.now ended
        (playing p nodes.old versions.old tally.old out.old) }
    ensures within { Within p bytes.now out.old → Within result bytes.now out.old }
{
    let mut at = p;
    for _ in 0..=bytes.len() {
        at = play_one(at, bytes, ended, nodes, versions, tally, out);
        if at.needs != Needs::Nothing {
            break;
        }
    }
    at
}
