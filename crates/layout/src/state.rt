// The whole state in its words. State and array are types of other crates, so the conversions are functions and no From.
ghost use Rattle.std.specs.Prelude.{◌≡◌, ◌≤◌, ◌<◌, take, drop, ◌++◌};
ghost use Rattle.std.specs.Simd.{first_chunks};
ghost use Rattle.model.specs.Layout.{limits};
ghost use Rattle.process.specs.ProcessWords.{sizes};
ghost use Rattle.layout.specs.Head.{head_offsets};
ghost use Rattle.layout.specs.StateWords.{head_words, all_words, state_words, all_from, state_from, all_known, known_head, is_state_below, part, is_state_at, put_event};
ghost use Rattle.std.proofs.lemmas.List.Edits.{sets};

use crate::head::{HeadOffsets, OPEN, header_of};
use model::types::{Counts, Lengths, Process, State};
use process::types::Sizes;
use process::words::{is_process, process_in, words_of};

// The words of each process, behind the head.
fn processes(words: &[u32; Sizes::STATE]) -> &[[u32; Sizes::PROCESS]; State::PROCESSES as usize]
    ensures { result.now ≡ first_chunks sizes.process limits.processes (drop sizes.head words.now) }
{
    words[Sizes::HEAD..].as_chunks().0.as_array().unwrap()
}

// The words of one process.
pub fn process_at(words: &[u32; Sizes::STATE], process: u32) -> &[u32; Sizes::PROCESS]
    requires { process < limits.processes }
    ensures { result.now ≡ part words.now process }
{
    &processes(words)[process as usize]
}

// Whether the first n processes have known numbers.
fn all_known(words: &[u32; Sizes::STATE], n: u32) -> bool
    requires { n ≤ limits.processes }
    ensures { result ≡ all_known n (drop sizes.head words.now) }
{
    processes(words)[..n as usize].iter().all(is_process)
}

// Whether the words are as many as a state's, of this layout, open or not.
pub fn is_head(words: &[u32]) -> bool
    ensures { result ≡ known_head words.now }
{
    if words.len() != Sizes::STATE {
        return false;
    }
    if words[HeadOffsets::VERSION] != Sizes::VERSION {
        return false;
    }
    words[HeadOffsets::OPENED] <= OPEN
}

// Whether the head and the processes below the count are a state's: what an inspection reads. The count may be any number.
pub fn is_state_below_count(words: &[u32]) -> bool
    ensures { result ≡ is_state_below words.now (state_from words.now).processes }
{
    if !is_head(words) {
        return false;
    }
    let n = words[HeadOffsets::PROCESSES].min(State::PROCESSES);
    all_known(words.as_array().unwrap(), n)
}

// The same of the head and one process: what a start, a step and a standing of it read.
pub fn is_state_at(words: &[u32], process: u32) -> bool
    ensures { result ≡ is_state_at words.now process }
{
    if !is_head(words) {
        return false;
    }
    if State::PROCESSES <= process {
        return true;
    }
    is_process(process_at(words.as_array().unwrap(), process))
}

// Nodes and versions in use.
#[tactic(auto, unfolding(crate::specs::StateWords::state_from))]
pub fn counts_in(words: &[u32; Sizes::STATE]) -> Counts
    ensures { result ≡ (state_from words.now).counts }
{
    Counts {
        nodes: words[HeadOffsets::NODES],
        versions: words[HeadOffsets::VERSIONS],
    }
}

// The processes, one after another, read into a table of idle ones. No `map`: the arrays that it makes are copied whole, which takes
// more than twice the stack, and calls of `memcpy` that whoever links the archive would have to bring.
fn processes_in(words: &[u32; Sizes::STATE]) -> [Process; State::PROCESSES as usize]
    ensures { result ≡ all_from limits.processes (drop sizes.head words.now) }
{
    let mut process = [Process::idle(); State::PROCESSES as usize];
    for i in 0..State::PROCESSES {
        process[i as usize] = process_in(process_at(words, i));
    }
    process
}

#[tactic(auto, unfolding(crate::specs::StateWords::state_from))]
pub fn state_in(words: &[u32; Sizes::STATE]) -> State
    ensures { result ≡ state_from words.now }
{
    let lengths = Lengths {
        nodes: words[HeadOffsets::NODE_LENGTH],
        versions: words[HeadOffsets::VERSION_LENGTH],
    };
    let counts = counts_in(words);
    let process = processes_in(words);
    State {
        opened: words[HeadOffsets::OPENED] == OPEN,
        processes: words[HeadOffsets::PROCESSES],
        limit: words[HeadOffsets::LIMIT],
        events: words[HeadOffsets::EVENTS],
        lengths,
        counts,
        process,
    }
}

fn put_head(words: &mut [u32; Sizes::STATE], s: State)
    ensures { words.new ≡ sets words.old head_offsets.version (head_words s) }
{
    words[HeadOffsets::VERSION] = Sizes::VERSION;
    words[HeadOffsets::HEADER..Sizes::HEAD].copy_from_slice(&header_of(s));
}

// Each is written where it stands, and not by `map`, for the same reason.
fn put_processes(words: &mut [u32; Sizes::STATE], process: [Process; State::PROCESSES as usize])
    ensures { words.new ≡ take sizes.head words.old ++ all_words process }
{
    for i in 0..State::PROCESSES {
        let at = Sizes::HEAD + Sizes::PROCESS * i as usize;
        words[at..at + Sizes::PROCESS].copy_from_slice(&words_of(process[i as usize]));
    }
}

pub fn put_state(words: &mut [u32; Sizes::STATE], s: State)
    ensures { words.new ≡ state_words s }
{
    let process = s.process;
    put_head(words, s);
    put_processes(words, process);
}

// The counts that an event leaves. Tick and counts stay two: what a step answers has the tick alone.
pub fn put_event(words: &mut [u32; Sizes::STATE], tick: u32, counts: Counts)
    ensures { words.new ≡ put_event words.old tick counts }
{
    words[HeadOffsets::EVENTS] = tick;
    words[HeadOffsets::NODES] = counts.nodes;
    words[HeadOffsets::VERSIONS] = counts.versions;
}
