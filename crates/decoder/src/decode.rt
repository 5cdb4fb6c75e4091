// One command from the bytes of a sheet.
ghost use Rattle.std.specs.Prelude.{◌≡◌, ◌^◌, ◌≤◌, ◌<◌, length, drop, IfOk};
ghost use Rattle.decoder.specs.Commands.{open_form, put_form, get_form, step_form, look_form};
ghost use Rattle.decoder.specs.Commands.{big_endian, opcodes, code_from, command_from};
ghost use Rattle.decoder.specs.Taking.{bytes_of, TakesNumber, TakesCommand, Decodes};

use crate::types::{Command, DecodeError, Decoded, KeyWidth};
use model::types::Key;
use values::halves::joined;

// What was taken from the front of bytes, and the bytes behind it.
type Taken<'a, T> = Result<(T, &'a [u8]), DecodeError>;

// The number that bytes make, the most significant first. No `from_be_bytes`: an operand has one, two or four bytes.
#[tactic(auto, unfolding(crate::specs::Commands::big_endian_from))]
fn big_endian(bytes: &[u8]) -> u32
    requires { length bytes.now ≤ 4 }
    ensures value { result ≡ big_endian bytes.now }
    ensures upper_bound { result < 256 ^ length bytes.now }
{
    let mut n = 0;
    for byte in bytes {
        n = 256 * n + u32::from(*byte);
    }
    n
}

// A number of `width` bytes.
fn take_number(bytes: &[u8], width: usize) -> Taken<'_, u32>
    requires { width ≤ 4 }
    ensures taken { TakesNumber width bytes.now result }
    ensures upper_bound { IfOk result (λ x. x.0 < 256 ^ width) }
{
    let (number, rest) = bytes.split_at_checked(width).ok_or(DecodeError::Short)?;
    Ok((big_endian(number), rest))
}

// A key. The bytes before its last four are its high half; of four bytes it is 0.
fn take_key(bytes: &[u8], width: KeyWidth) -> Taken<'_, Key>
    ensures { TakesNumber (bytes_of width) bytes.now result }
{
    let (high, rest) = match width {
        KeyWidth::Four => (0, bytes),
        KeyWidth::Eight => take_number(bytes, 4)?,
    };
    let (low, rest) = take_number(rest, 4)?;
    Ok((joined(low, high), rest))
}

// The commands, each from the bytes behind its code.
fn open(operands: &[u8]) -> Taken<'_, Command>
    ensures { TakesCommand open_form operands.now result }
{
    let (keys, rest) = take_number(operands, 2)?;
    let (versions, rest) = take_number(rest, 2)?;
    let (processes, rest) = take_number(rest, 1)?;
    let (limit, rest) = take_number(rest, 4)?;
    let command = Command::Open {
        keys,
        versions,
        processes,
        limit,
    };
    Ok((command, rest))
}

fn put(operands: &[u8], width: KeyWidth) -> Taken<'_, Command>
    ensures { TakesCommand (put_form (bytes_of width)) operands.now result }
{
    let (process, rest) = take_number(operands, 1)?;
    let (key, rest) = take_key(rest, width)?;
    let (value, rest) = take_number(rest, 4)?;
    let (timestamp, rest) = take_number(rest, 4)?;
    let (draw, rest) = take_number(rest, 2)?;
    let command = Command::Put {
        process,
        key,
        value,
        timestamp,
        draw: draw as u16,
    };
    Ok((command, rest))
}

fn get(operands: &[u8], width: KeyWidth) -> Taken<'_, Command>
    ensures { TakesCommand (get_form (bytes_of width)) operands.now result }
{
    let (process, rest) = take_number(operands, 1)?;
    let (key, rest) = take_key(rest, width)?;
    Ok((Command::Get { process, key }, rest))
}

fn step(operands: &[u8]) -> Taken<'_, Command>
    ensures { TakesCommand step_form operands.now result }
{
    let (process, rest) = take_number(operands, 1)?;
    Ok((Command::Step { process }, rest))
}

fn look(operands: &[u8], width: KeyWidth) -> Taken<'_, Command>
    ensures { TakesCommand (look_form (bytes_of width)) operands.now result }
{
    let (key, rest) = take_key(operands, width)?;
    let (back, rest) = take_number(rest, 2)?;
    Ok((Command::Look { key, back }, rest))
}

// The code says which command it is, and the width of its key: the bytes are document 01's, which asks for a match over them.
#[tactic(auto, using(crate::proofs::Decoding::form_decodes), unfolding(crate::specs::Commands::code_from, crate::specs::Commands::form_from))]
fn command(code: u8, operands: &[u8]) -> Taken<'_, Command>
    ensures { Decodes (code_from opcodes code operands.now) operands.now result }
{
    match code {
        0x4F => open(operands),
        0x50 => put(operands, KeyWidth::Four),
        0x47 => get(operands, KeyWidth::Four),
        0x53 => step(operands),
        0x4C => look(operands, KeyWidth::Four),
        0x49 => Ok((Command::Inspect, operands)),
        0x70 => put(operands, KeyWidth::Eight),
        0x67 => get(operands, KeyWidth::Eight),
        0x6C => look(operands, KeyWidth::Eight),
        _ => Err(DecodeError::Unknown),
    }
}

// The command at `at`. A position, since the bytes of a round are decoded from more than one place.
#[tactic(auto, unfolding(crate::specs::Commands::command_from))]
pub fn decode(bytes: &[u8], at: usize) -> Decoded
    ensures { result ≡ command_from (drop at bytes.now) }
{
    let Some([code, operands @ ..]) = bytes.get(at..) else {
        return Err(DecodeError::End);
    };
    let (command, rest) = command(*code, operands)?;
    Ok((command, 1 + (operands.len() - rest.len())))
}
