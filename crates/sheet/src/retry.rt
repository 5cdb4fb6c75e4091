// Calls that move bytes: tried again where that helps, and else told on standard error.
ghost use Rattle.std.specs.Prelude.{◌<◌, ◌≡◌, length, IfOk};
ghost use Rattle.sheet.specs.Runs.{input_of, InRoom};

use crate::types::{Failed, Input};
use std::io::{self, ErrorKind, Read, Write};
use std::thread::yield_now;

// Whether a call that failed is to be made again: a signal came before a byte was moved, or a descriptor that does not wait
// has nothing yet, or no room yet. Then other programs have their round first.
fn again(error: &io::Error) -> bool {
    match error.kind() {
        ErrorKind::WouldBlock => {
            yield_now();
            true
        }
        ErrorKind::Interrupted => true,
        _ => false,
    }
}

// The system's text of an error, without the number that stands behind it.
fn cause(text: &str) -> &str {
    text.split(" (os error ").next().unwrap_or(text)
}

// Tells on standard error what failed and why.
fn tell(rt: &HostRuntime, what: &str, error: &io::Error) {
    let _ = match format!(in rt.alloc(); "{error}") {
        Ok(text) => eprintln!(rt; "sheet: {what}: {}", cause(text.as_str())),
        Err(_) => eprintln!(rt; "sheet: {what}: {error}"),
    };
}

// What a read into `buf` brought that answered `got`.
fn input(got: Result<usize, Failed>, buf: &[u8]) -> Input
    ensures value { result ≡ input_of got (length buf.now) }
    ensures in_room { InRoom (length buf.now) result }
{
    let count = got?.min(buf.len());
    Ok(if count == 0 { None } else { Some(count) })
}

// Reads what there is, at most as much as `buf` has room for. A proved loop has to end, so it counts its tries up to a
// number that no run reaches.
pub fn read(rt: &HostRuntime, buf: &mut [u8]) -> Input
    ensures { InRoom (length buf.old) result }
{
    for _ in 0..u64::MAX {
        match rt.stdin().read(buf) {
            Ok(count) => return input(Ok(count), buf),
            Err(error) => {
                if !again(&error) {
                    tell(rt, "standard input", &error);
                    return input(Err(Failed), buf);
                }
            }
        }
    }
    Err(Failed)
}

// One write of what `out` begins with, tried again as a read is, and where it took no byte. The answer is what is left of `out`. No loop for both:
// a read ends with any count, and a write of none goes round again.
fn write_some<'a>(rt: &HostRuntime, out: &'a [u8]) -> Result<&'a [u8], Failed>
    requires { 0 < length out.now }
    ensures { IfOk result (λ rest. length rest.now < length out.now) }
{
    for _ in 0..u64::MAX {
        match rt.stdout().write(out) {
            Ok(count) => {
                if 0 < count {
                    return Ok(&out[count..]);
                }
            }
            Err(error) => {
                if !again(&error) {
                    tell(rt, "standard output", &error);
                    return Err(Failed);
                }
            }
        }
    }
    Err(Failed)
}

// Writes all of `out`. No `write_all`: that fails where a write takes no byte or where the descriptor has no room yet.
pub fn write(rt: &HostRuntime, out: &[u8]) -> Result<(), Failed> {
    let mut rest = out;
    while !rest.is_empty() {
        rest = write_some(rt, rest)?;
    }
    Ok(())
}
