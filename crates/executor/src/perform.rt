// One command on the store.
ghost use Rattle.std.specs.Prelude.{◌||◌, ◌≡◌};
ghost use Rattle.buffers.specs.Session.{session, done, call_on};
ghost use Rattle.executor.specs.Perform.{opens, perform_of};

use buffers::store_calls::{get_on, inspect_on, look_on, open_on, put_on, step_on};
use buffers::types::Performed;
use decoder::types::Command;
use model::types::{Refusal, State};
use printer::types::Line;

// The one command that is performed on a closed store: it makes the store that the others need.
fn opens(command: Command) -> bool
    ensures { result ≡ opens command }
{
    matches!(command, Command::Open { .. })
}

// A command other than an open needs an open store.
fn allowed(opened: bool, command: Command) -> bool
    ensures { result ≡ (opened || opens command) }
{
    opened || opens(command)
}

// The call that the command asks for. A look and an inspection leave the state, so it is handed back as it came. A match, and no table of
// functions: each command has operands of its own and needs other buffers.
#[tactic(auto, unfolding(buffers::specs::Session::call_on))]
fn call(
    s: State,
    command: Command,
    nodes: &mut [u32],
    versions: &mut [u32],
    tally: &mut [u32],
) -> Performed
    ensures { done result nodes.new versions.new tally.new
        ≡ call_on (session s nodes.old versions.old tally.old) command }
{
    match command {
        Command::Open {
            keys,
            versions: count,
            processes,
            limit,
        } => open_on(s, keys, count, processes, limit, nodes, versions, tally),
        Command::Put {
            process,
            key,
            value,
            timestamp,
            draw,
        } => put_on(s, process, key, value, timestamp, draw, nodes, versions),
        Command::Get { process, key } => get_on(s, process, key, nodes, versions),
        Command::Step { process } => step_on(s, process, nodes, versions, tally),
        Command::Look { key, back } => Performed {
            line: look_on(s, key, back, nodes, versions),
            state: s,
        },
        Command::Inspect => Performed {
            line: inspect_on(s, nodes, versions),
            state: s,
        },
    }
}

// Every command has its line: one before an accepted open prints refusal 14, and leaves all as it was.
#[tactic(auto, unfolding(crate::specs::Perform::perform_of))]
pub fn perform(
    s: State,
    command: Command,
    nodes: &mut [u32],
    versions: &mut [u32],
    tally: &mut [u32],
) -> Performed
    ensures { done result nodes.new versions.new tally.new
        ≡ perform_of (session s nodes.old versions.old tally.old) command }
{
    if allowed(s.opened, command) {
        call(s, command, nodes, versions, tally)
    } else {
        Performed {
            line: Line::Refused(Refusal::NotOpen),
            state: s,
        }
    }
}
