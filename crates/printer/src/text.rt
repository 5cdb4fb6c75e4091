// Words, written at a position of a lent buffer. Each function answers the position after what it wrote: a struct of buffer and
// position would be no plainer, since a caller of `print` keeps the two apart.
ghost use Rattle.std.specs.Prelude.{◌≡◌, ◌+◌, ◌≤◌, ◌<◌, length, map};
ghost use Rattle.printer.specs.Text.{decimal, line, Wrote};
ghost use Rattle.printer.specs.Words.{bytes_of, most, room_for};

use crate::types::Word;

// The digits of n: those of a tenth of it, then the last. `Line::print` promises the line wherever there is room, and of std's
// `fmt` no clause says that it succeeds.
fn put_decimal(out: &mut [u8], at: usize, n: u64) -> usize
    requires { at + length (decimal n) ≤ length out.old }
    ensures { Wrote out.old out.new at result (decimal n) }
{
    if n < 10 {
        out[at] = b'0' + n as u8;
        return at + 1;
    }
    let last = put_decimal(out, at, n / 10);
    out[last] = b'0' + (n % 10) as u8;
    last + 1
}

fn put_text(out: &mut [u8], at: usize, text: &str) -> usize
    requires { at + length text.now ≤ length out.old }
    ensures { Wrote out.old out.new at result text.now }
{
    let end = at + text.len();
    out[at..end].copy_from_slice(text.as_bytes());
    end
}

fn put_word(out: &mut [u8], at: usize, word: Word) -> usize
    requires { at + most word ≤ length out.old }
    ensures wrote { Wrote out.old out.new at result (bytes_of word) }
    ensures upper_bound { result ≤ at + most word }
{
    match word {
        Word::Text(text) => put_text(out, at, text),
        Word::Number(n) => put_decimal(out, at, u64::from(n)),
        Word::Tray(key) => put_decimal(out, at, key),
    }
}

// Words with a space between two, and the line's end.
pub fn put_line(out: &mut [u8], at: usize, words: &[Word]) -> usize
    requires some { 0 < length words.now }
    requires room { at + room_for words.now ≤ length out.old }
    ensures wrote { Wrote out.old out.new at result (line (map bytes_of words.now)) }
    ensures upper_bound { result ≤ at + room_for words.now }
{
    let mut next = at;
    for (i, word) in words.iter().enumerate() {
        next = put_word(out, next, *word);
        out[next] = if i + 1 < words.len() { b' ' } else { b'\n' };
        next += 1;
    }
    next
}
