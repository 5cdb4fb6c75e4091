// One process in its twenty-one words. Process and array are types of other crates, so the conversions are functions and no From.
ghost use Rattle.std.specs.Prelude.{◌≡◌, length};
ghost use Rattle.process.specs.ProcessWords.{sizes, process_offsets, call_words, cursor_words, effect_words, process_words, process_from, known_process};
ghost use Rattle.std.proofs.lemmas.List.Edits.{sets};

use crate::types::{ProcessOffsets, Sizes};
use model::types::{Answer, Call, Cursor, Effect, Kind, Phase, Process, State};
use numbers::numbered::Numbered;
use values::halves::{high_half, joined, low_half};

pub fn call_in(w: &[u32; Sizes::PROCESS]) -> Call
    ensures { result ≡ (process_from w.now).call }
{
    Call {
        kind: Kind::from_number(w[ProcessOffsets::KIND]),
        key: joined(w[ProcessOffsets::KEY_LOW], w[ProcessOffsets::KEY_HIGH]),
        last: joined(w[ProcessOffsets::LAST_LOW], w[ProcessOffsets::LAST_HIGH]),
        value: w[ProcessOffsets::VALUE],
        timestamp: w[ProcessOffsets::TIMESTAMP],
        top: w[ProcessOffsets::TOP],
        start: w[ProcessOffsets::START],
    }
}

pub fn cursor_in(w: &[u32; Sizes::PROCESS]) -> Cursor
    ensures { result ≡ (process_from w.now).cursor }
{
    Cursor {
        phase: Phase::from_number(w[ProcessOffsets::PHASE]),
        level: w[ProcessOffsets::LEVEL],
        pred: w[ProcessOffsets::PRED],
        made: w[ProcessOffsets::MADE],
    }
}

pub fn effect_in(w: &[u32; Sizes::PROCESS]) -> Effect
    ensures { result ≡ (process_from w.now).effect }
{
    Effect {
        answer: Answer::from_number(w[ProcessOffsets::ANSWER]),
        tick: w[ProcessOffsets::TICK],
    }
}

pub fn preds_in(w: &[u32; Sizes::PROCESS]) -> [u32; State::LEVELS]
    ensures { result ≡ (process_from w.now).preds }
{
    *w.last_chunk().unwrap()
}

pub fn process_in(w: &[u32; Sizes::PROCESS]) -> Process
    ensures { result ≡ process_from w.now }
{
    Process {
        call: call_in(w),
        cursor: cursor_in(w),
        effect: effect_in(w),
        preds: preds_in(w),
    }
}

// A word is a low half whatever it holds, so nothing of a key is tested.
pub fn is_process(w: &[u32; Sizes::PROCESS]) -> bool
    ensures { result ≡ known_process w.now }
{
    w[ProcessOffsets::KIND] < Kind::COUNT
        && w[ProcessOffsets::PHASE] < Phase::COUNT
        && w[ProcessOffsets::ANSWER] < Answer::COUNT
}

// A process by value in its words.
pub fn words_of(p: Process) -> [u32; Sizes::PROCESS]
    ensures { result ≡ process_words p }
{
    let Process {
        call,
        cursor,
        effect,
        preds: [a, b, c, d, e, f],
    } = p;
    [
        call.kind.number(),
        low_half(call.key),
        high_half(call.key),
        low_half(call.last),
        high_half(call.last),
        call.value,
        call.timestamp,
        call.top,
        call.start,
        cursor.phase.number(),
        cursor.level,
        cursor.pred,
        cursor.made,
        effect.answer.number(),
        effect.tick,
        a,
        b,
        c,
        d,
        e,
        f,
    ]
}

// Each writer writes its own words and no other. They take slices: of a part of an array lent as an array the proofs do not
// know what it ends as.
pub fn put_cursor(w: &mut [u32], c: Cursor)
    requires { length w.old ≡ sizes.process }
    ensures { w.new ≡ sets w.old process_offsets.phase (cursor_words c) }
{
    w[ProcessOffsets::PHASE] = c.phase.number();
    w[ProcessOffsets::LEVEL] = c.level;
    w[ProcessOffsets::PRED] = c.pred;
    w[ProcessOffsets::MADE] = c.made;
}

pub fn put_effect(w: &mut [u32], e: Effect)
    requires { length w.old ≡ sizes.process }
    ensures { w.new ≡ sets w.old process_offsets.answer (effect_words e) }
{
    w[ProcessOffsets::ANSWER] = e.answer.number();
    w[ProcessOffsets::TICK] = e.tick;
}

// A call's words alone: what stands in the process's other words stays, where `words_of` gives all of them.
pub fn put_call(w: &mut [u32], c: Call)
    requires { length w.old ≡ sizes.process }
    ensures { w.new ≡ sets w.old process_offsets.kind (call_words c) }
{
    w[ProcessOffsets::KIND] = c.kind.number();
    w[ProcessOffsets::KEY_LOW] = low_half(c.key);
    w[ProcessOffsets::KEY_HIGH] = high_half(c.key);
    w[ProcessOffsets::LAST_LOW] = low_half(c.last);
    w[ProcessOffsets::LAST_HIGH] = high_half(c.last);
    w[ProcessOffsets::VALUE] = c.value;
    w[ProcessOffsets::TIMESTAMP] = c.timestamp;
    w[ProcessOffsets::TOP] = c.top;
    w[ProcessOffsets::START] = c.start;
}
