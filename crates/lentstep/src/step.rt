// One step of a process: the head and its words are read and written, and no other.
ghost use Rattle.std.specs.Prelude.{◌≡◌, true, ◌≤◌, ◌<◌, Ok};
ghost use Rattle.model.specs.Layout.{limits};
ghost use Rattle.lent.specs.Calls.{lawful_in, stepped_in, step_in, step_permit_in};

use apply::leave::leave;
use layout::head::HeadOffsets;
use layout::state::{counts_in, is_head, is_state_at, process_at};
use limits::lawful::lawful_store;
use model::types::{Kind, Refusal, State, Stepping};
use numbers::numbered::Numbered;
use process::types::{ProcessOffsets, Sizes};
use refusals::permit::step_permit;
use transition::step::transition;
use versiontable::memory::Memory;

// A number past the last process has no words: its step is refused.
fn step_past(
    words: &[u32],
    process: u32,
    nodes: &[u32],
    versions: &[u32],
    tally: &[u32],
) -> Stepping
    requires { limits.processes ≤ process }
    ensures { stepped_in result words.now nodes.now versions.now tally.now
        ≡ step_in words.now nodes.now versions.now tally.now process }
{
    if !is_state_at(words, process) {
        return Err(Refusal::Corrupt);
    }
    let header = &words[HeadOffsets::HEADER..Sizes::HEAD];
    step_permit(header, Kind::Idle, nodes, versions, tally, process)?;
    Err(Refusal::NoProcess)
}

// Whether the head and the process's words are those of a lawful state with these tables. The head before the process,
// whose words then need not be kept.
fn lawful_in(words: &[u32; Sizes::STATE], process: u32, nodes: &[u32], versions: &[u32]) -> bool
    ensures { result ≡ lawful_in words.now nodes.now versions.now process }
{
    if !is_head(words) {
        return false;
    }
    if !lawful_store(&words[HeadOffsets::HEADER..Sizes::HEAD], nodes, versions) {
        return false;
    }
    is_state_at(words, process)
}

// A step that is let pass: the transition of its process, and what that leaves. Not `advance` of storestep, which hands a whole process back:
// `leave` writes from `at` on only the words that change.
fn advance_in(
    words: &mut [u32; Sizes::STATE],
    process: u32,
    nodes: &mut [u32],
    versions: &mut [u32],
    tally: &mut [u32],
) -> Stepping
    requires { step_permit_in words.old nodes.old versions.old tally.old process ≡ Ok tt }
    ensures { stepped_in result words.new nodes.new versions.new tally.new
        ≡ step_in words.old nodes.old versions.old tally.old process }
{
    let at = Sizes::HEAD + Sizes::PROCESS * process as usize;
    let tick = words[HeadOffsets::EVENTS] + 1;
    let mut memory = Memory {
        nodes,
        versions,
        counts: counts_in(words),
    };
    let of = process_at(words, process);
    let mv = transition(of, process + 1, tick, &mut memory);
    let counts = memory.counts;
    leave(words, at, tick, counts, mv, tally)
}

// A step whose words were tested: the refusals behind that, and where none is due the advance.
fn step_known(
    words: &mut [u32; Sizes::STATE],
    process: u32,
    nodes: &mut [u32],
    versions: &mut [u32],
    tally: &mut [u32],
) -> Stepping
    requires in_range { process < limits.processes }
    requires lawful { lawful_in words.old nodes.old versions.old process ≡ true }
    ensures { stepped_in result words.new nodes.new versions.new tally.new
        ≡ step_in words.old nodes.old versions.old tally.old process }
{
    let kind = Kind::from_number(process_at(words, process)[ProcessOffsets::KIND]);
    let header = &words[HeadOffsets::HEADER..Sizes::HEAD];
    step_permit(header, kind, nodes, versions, tally, process)?;
    advance_in(words, process, nodes, versions, tally)
}

// The call that runs most. It tests its own process and the head, and no other process, so that a step costs the same
// however many there are.
pub fn step_in(
    words: &mut [u32],
    process: u32,
    nodes: &mut [u32],
    versions: &mut [u32],
    tally: &mut [u32],
) -> Stepping
    ensures { stepped_in result words.new nodes.new versions.new tally.new
        ≡ step_in words.old nodes.old versions.old tally.old process }
{
    if State::PROCESSES <= process {
        return step_past(words, process, nodes, versions, tally);
    }
    // Put first, this test costs a step two instructions more.
    let Some(words) = words.as_mut_array() else {
        return Err(Refusal::Corrupt);
    };
    if !lawful_in(words, process, nodes, versions) {
        return Err(Refusal::Corrupt);
    }
    step_known(words, process, nodes, versions, tally)
}
