// A command of a sheet, and what decoding finds.
use model::types::Key;
// A command with its operands. `keys` and `versions` are document 01's K and V.
#[derive(Clone, Copy)]
pub enum Command {
    Open {
        keys: u32,
        versions: u32,
        processes: u32,
        limit: u32,
    },
    Put {
        process: u32,
        key: Key,
        value: u32,
        timestamp: u32,
        draw: u16,
    },
    Get {
        process: u32,
        key: Key,
    },
    Step {
        process: u32,
    },
    Look {
        key: Key,
        back: u32,
    },
    Inspect,
}

// How many bytes a key has: those of its low half, or of both halves.
#[derive(Clone, Copy)]
pub enum KeyWidth {
    Four,
    Eight,
}

// Why no command stands at a position of the bytes read so far.
#[derive(Clone, Copy)]
pub enum DecodeError {
    // A byte that begins no command: refusal 15.
    Unknown,
    // The start of a command. Where the input has ended it is refusal 16, else more bytes are to be read.
    Short,
    // No byte.
    End,
}

// What stands at a position: a command, and how many bytes it has.
pub type Decoded = Result<(Command, usize), DecodeError>;
