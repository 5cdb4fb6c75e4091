// Input: pieces of any size, in which a command may be cut.
ghost use Rattle.std.specs.Prelude.{◌-◌, ◌≤◌, ◌≡◌, length};
ghost use Rattle.interpreter.specs.declared.types.Needs.{Needs};
ghost use Rattle.sheet.specs.Runs.{Ready, Supplied, InRoom, took_of, Refilled};

use crate::retry::read;
use crate::types::{Failed, Input, Run};
use interpreter::types::Needs;
use model::types::State;

// The run with what was read behind the `held` bytes, which stand at the front.
fn took(state: State, bytes: &[u8], held: usize, input: Input) -> Run
    requires held_in_bounds { held ≤ length bytes.now }
    requires in_room { InRoom (length bytes.now - held) input }
    ensures value { result ≡ took_of state held input }
    ensures ready { Ready result (length bytes.now) }
    ensures supplied { Supplied result }
{
    let held_only = Run {
        state,
        from: 0,
        end: held,
        ended: false,
        next: 0,
        needs: Needs::Nothing,
    };
    match input {
        Ok(Some(count)) => Run {
            end: held + count,
            ..held_only
        },
        Ok(None) => Run {
            ended: true,
            ..held_only
        },
        Err(Failed) => Run {
            needs: Needs::Over,
            ..held_only
        },
    }
}

// Moves the bytes that are held to the front, and reads behind them. There is room, so that nothing read is the input's end.
pub fn refill(rt: &HostRuntime, r: Run, bytes: &mut [u8]) -> Run
    requires ready { Ready r (length bytes.old) }
    requires needs_bytes { r.needs ≡ Needs.Bytes }
    ensures still_ready { Ready result (length bytes.old) }
    ensures supplied { Supplied result }
    ensures refilled { Refilled r result bytes.old bytes.new }
{
    let held = r.end - r.from;
    bytes.copy_within(r.from..r.end, 0);
    let input = read(rt, &mut bytes[held..]);
    took(r.state, bytes, held, input)
}
