// The line that an answer prints.
ghost use Rattle.std.specs.Prelude.{◌≡◌, ◌+◌, ◌≤◌, [], ◌∷◌, leb, length};
ghost use Rattle.printer.specs.Text.{ascii, decimal, line, Wrote};
ghost use Rattle.printer.specs.Lines.{kind_word, answer_word, line_of, room, print_of};

use crate::text::put_line;
use crate::types::Line;
use crate::types::Word::{Number, Text, Tray};
use model::types::{Answer, Finish, Key, Kind};
use numbers::number_of;

fn kind_name(kind: Kind) -> &'static str
    ensures { result.now ≡ kind_word kind }
{
    match kind {
        Kind::Idle => "idle",
        Kind::Put => "put",
        Kind::Get => "get",
        Kind::Scan => "sweep",
    }
}

fn answer_name(answer: Answer) -> &'static str
    ensures { result.now ≡ answer_word answer }
{
    match answer {
        Answer::TooOld => "too-old",
        Answer::VersionsFull => "readings-full",
        Answer::Added => "added",
        Answer::KeysFull => "trays-full",
        Answer::New => "new",
        Answer::Found => "found",
        Answer::None => "none",
        Answer::Swept => "swept",
    }
}

fn put_open(
    out: &mut [u8],
    at: usize,
    keys: u32,
    versions: u32,
    processes: u32,
    limit: u32,
) -> usize
    requires { at + room ≤ length out.old }
    ensures { Wrote out.old out.new at result (line_of (Line.Opened keys versions processes limit)) }
{
    let words = [
        Text("open"),
        Number(keys),
        Number(versions),
        Number(processes),
        Number(limit),
    ];
    put_line(out, at, &words)
}

// `how` is `on` or `wait`.
fn put_step(out: &mut [u8], at: usize, process: u32, tick: u32, how: &'static str) -> usize
    requires room { at + room ≤ length out.old }
    requires short { length how.now ≤ 4 }
    ensures { Wrote out.old out.new at result
        (line (ascii "step" ∷ decimal process ∷ decimal tick ∷ how.now ∷ [])) }
{
    put_line(
        out,
        at,
        &[Text("step"), Number(process), Number(tick), Text(how)],
    )
}

fn put_look(out: &mut [u8], at: usize, key: Key, back: u32, value: u32, timestamp: u32) -> usize
    requires { at + room ≤ length out.old }
    ensures { Wrote out.old out.new at result (line_of (Line.Looked key back value timestamp)) }
{
    let words = [
        Text("look"),
        Tray(key),
        Number(back),
        Number(value),
        Number(timestamp),
    ];
    put_line(out, at, &words)
}

fn put_done(out: &mut [u8], at: usize, process: u32, finish: Finish) -> usize
    requires { at + room ≤ length out.old }
    ensures { Wrote out.old out.new at result (line_of (Line.Done process finish)) }
{
    let words = [
        Text("done"),
        Number(process),
        Text(kind_name(finish.kind)),
        Text(answer_name(finish.answer)),
        Number(finish.value),
        Number(finish.timestamp),
        Number(finish.start),
        Number(finish.effect),
        Number(finish.finish),
    ];
    put_line(out, at, &words)
}

// Whether a line has room from `at` on.
pub fn has_room(out: &[u8], at: usize) -> bool
    ensures { result ≡ leb (at + room) (length out.now) }
{
    out.get(at..).is_some_and(|rest| Line::ROOM <= rest.len())
}

impl Line {
    // Bytes that any line has room in.
    pub const ROOM: usize = 128;

    // The line from `at` on; the answer is the position after it. Where fewer than `ROOM` bytes are left, nothing is
    // written and the position stays.
    #[tactic(auto, unfolding(crate::specs::Lines::print_of))]
    pub fn print(self, out: &mut [u8], at: usize) -> usize
        ensures printed { record { bytes = out.new; next = result } ≡ print_of out.old at self }
        ensures upper_bound { at ≤ length out.old → result ≤ length out.old }
    {
        // No Option: `print_of` has a position in both cases, and a caller would put the old one for None.
        if !has_room(out, at) {
            return at;
        }
        // Each arm calls `put_line`: one match that gives the words as a slice was tried, and the borrow rules do not cover it.
        match self {
            Line::Opened {
                keys,
                versions,
                processes,
                limit,
            } => put_open(out, at, keys, versions, processes, limit),
            Line::Started { process, tick } => {
                put_line(out, at, &[Text("start"), Number(process), Number(tick)])
            }
            Line::Stepped { process, tick } => put_step(out, at, process, tick, "on"),
            Line::Waited { process, tick } => put_step(out, at, process, tick, "wait"),
            Line::Done { process, finish } => put_done(out, at, process, finish),
            Line::Looked {
                key,
                back,
                value,
                timestamp,
            } => put_look(out, at, key, back, value, timestamp),
            Line::Sound => put_line(out, at, &[Text("sound")]),
            Line::Fault { level, node } => put_line(
                out,
                at,
                &[Text("fault"), Number(level), Number(node)],
            ),
            Line::Refused(refusal) => put_line(
                out,
                at,
                &[Text("refused"), Number(number_of(refusal))],
            ),
        }
    }
}
