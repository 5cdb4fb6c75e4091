// What C is told of an outcome: the number to return, and the answer words. A refusal sets every answer word to 0, so that
// nothing of an earlier call is left there to be taken for an answer.
ghost use Rattle.std.specs.Prelude.{◌≡◌, [], ◌∷◌, Ok};
ghost use Rattle.std.specs.Result.{result_unwrap_or};
ghost use Rattle.replies.specs.Told.{reply, accepted, number_told, open_told, start_told, event_words, shown_words, finish_words, step_told, look_told, inspect_told, status_told};

use model::types::{
    Fault, Finish, Inspecting, Item, Looking, Opening, Progress, Refusal, Running, Starting,
    Status, Stepping, Version,
};
use numbers::number_of;
use numbers::numbered::Numbered;
use values::halves::{high_half, low_half};

// How many words the answer of each call has.
pub const STEP_WORDS: usize = 8;

pub const LOOK_WORDS: usize = 2;

pub const INSPECT_WORDS: usize = 3;

pub const STATUS_WORDS: usize = 3;

// What a step did, in its first word: these numbers, the fault's and what each function here answers are the C interface.
const MOVED: u32 = 0;

const WAITED: u32 = 1;

const FINISHED: u32 = 2;

const SHOWN: u32 = 3;

// What an inspection found, in its first word; sound is 0.
const FAULT: u32 = 1;

// 0 where the call is accepted, or the refusal's number.
#[tactic(auto, unfolding(crate::specs::Told::number_told))]
fn number_told<T: Copy>(outcome: Result<T, Refusal>) -> u32
    ensures { result ≡ number_told outcome }
{
    match outcome {
        Ok(_) => 0,
        Err(refusal) => number_of(refusal),
    }
}

// The answer of an accepted call is stored, or zeros; the number is returned.
fn tell<A: Copy>(outcome: Result<A, Refusal>, zeros: A, answer: &mut A) -> u32
    ensures number { result ≡ number_told outcome }
    ensures answer { answer.new ≡ result_unwrap_or outcome zeros }
{
    *answer = outcome.unwrap_or(zeros);
    number_told(outcome)
}

// An opening has no answer beside its number.
#[tactic(auto, unfolding(crate::specs::Told::open_told, crate::specs::Told::number_told))]
pub fn tell_open(outcome: Opening) -> u32
    ensures { result ≡ open_told outcome }
{
    number_told(outcome)
}

// The tick, which is never 0 where the start was let pass.
#[tactic(auto, unfolding(crate::specs::Told::start_told, crate::specs::Told::number_told))]
pub fn tell_start(outcome: Starting, tick: &mut u32) -> u32
    ensures { reply result (tick.new ∷ []) ≡ start_told outcome }
{
    tell(outcome, 0, tick)
}

// What a step tells that neither shows nor ends.
fn event_words(told: u32, tick: u32) -> [u32; STEP_WORDS]
    ensures { result ≡ event_words told tick }
{
    [told, tick, 0, 0, 0, 0, 0, 0]
}

// What a step of a scan tells that shows a key and its newest version.
fn shown_words(tick: u32, item: Item) -> [u32; STEP_WORDS]
    ensures { result ≡ shown_words tick item }
{
    let low = low_half(item.key);
    let high = high_half(item.key);
    let Version { value, timestamp } = item.version;
    [SHOWN, tick, low, high, value, timestamp, 0, 0]
}

// What a finishing step tells: the tick stands second in every step's answer, so the finish comes before the kind.
fn finish_words(f: Finish) -> [u32; STEP_WORDS]
    ensures { result ≡ finish_words f }
{
    [
        FINISHED,
        f.finish,
        f.kind.number(),
        f.answer.number(),
        f.value,
        f.timestamp,
        f.start,
        f.effect,
    ]
}

// What a step tells that is not refused.
#[tactic(auto, unfolding(crate::specs::Told::step_told))]
fn progress_words(progress: Progress) -> [u32; STEP_WORDS]
    ensures { step_told (Ok progress) ≡ accepted result }
{
    match progress {
        Progress::Moved(tick) => event_words(MOVED, tick),
        Progress::Waited(tick) => event_words(WAITED, tick),
        Progress::Shown(tick, item) => shown_words(tick, item),
        Progress::Finished(finish) => finish_words(finish),
    }
}

// Eight words for every outcome, those that it does not use 0, so that a caller may read them all without a test.
#[tactic(auto, unfolding(crate::specs::Told::step_told, crate::specs::Told::number_told))]
pub fn tell_step(outcome: Stepping, answer: &mut [u32; STEP_WORDS]) -> u32
    ensures { reply result answer.new ≡ step_told outcome }
{
    tell(outcome.map(progress_words), [0; STEP_WORDS], answer)
}

#[tactic(auto, unfolding(crate::specs::Told::look_told))]
fn version_words(version: Version) -> [u32; LOOK_WORDS]
    ensures { look_told (Ok version) ≡ accepted result }
{
    [version.value, version.timestamp]
}

// Value and timestamp: any two words may be a version, so that only the number tells a refusal from one of zeroes.
#[tactic(auto, unfolding(crate::specs::Told::look_told, crate::specs::Told::number_told))]
pub fn tell_look(outcome: Looking, answer: &mut [u32; LOOK_WORDS]) -> u32
    ensures { reply result answer.new ≡ look_told outcome }
{
    tell(outcome.map(version_words), [0; LOOK_WORDS], answer)
}

// What an inspection tells that is not refused.
#[tactic(auto, unfolding(crate::specs::Told::inspect_told))]
fn fault_words(found: Option<Fault>) -> [u32; INSPECT_WORDS]
    ensures { inspect_told (Ok found) ≡ accepted result }
{
    match found {
        None => [0; INSPECT_WORDS],
        Some(fault) => [FAULT, fault.level, fault.node],
    }
}

// A fault is no refusal: the call did what was asked, and the number is 0.
#[tactic(auto, unfolding(crate::specs::Told::inspect_told, crate::specs::Told::number_told))]
pub fn tell_inspect(outcome: Inspecting, answer: &mut [u32; INSPECT_WORDS]) -> u32
    ensures { reply result answer.new ≡ inspect_told outcome }
{
    tell(outcome.map(fault_words), [0; INSPECT_WORDS], answer)
}

// What is told of a process. The kind's number tells whether there is a call: it is 0 for a process that has none, as its
// two ticks are.
#[tactic(auto, unfolding(crate::specs::Told::status_told))]
fn running_words(call: Option<Running>) -> [u32; STATUS_WORDS]
    ensures { status_told (Ok call) ≡ accepted result }
{
    match call {
        None => [0; STATUS_WORDS],
        Some(call) => [call.kind.number(), call.start, call.effect],
    }
}

#[tactic(auto, unfolding(crate::specs::Told::status_told, crate::specs::Told::number_told))]
pub fn tell_status(outcome: Status, answer: &mut [u32; STATUS_WORDS]) -> u32
    ensures { reply result answer.new ≡ status_told outcome }
{
    tell(outcome.map(running_words), [0; STATUS_WORDS], answer)
}
