// A line of output, and what it says.
use model::types::{Finish, Key, Refusal};

// A line of output. `Stepped` is a step that went on, `Waited` one at a held lock, `Done` one that finished its call.
#[derive(Clone, Copy)]
pub enum Line {
    Opened {
        keys: u32,
        versions: u32,
        processes: u32,
        limit: u32,
    },
    Started {
        process: u32,
        tick: u32,
    },
    Stepped {
        process: u32,
        tick: u32,
    },
    Waited {
        process: u32,
        tick: u32,
    },
    Done {
        process: u32,
        finish: Finish,
    },
    Looked {
        key: Key,
        back: u32,
        value: u32,
        timestamp: u32,
    },
    Sound,
    Fault {
        level: u32,
        node: u32,
    },
    Refused(Refusal),
}

// A word of a line. A key has up to 20 digits, any other number up to 10.
#[derive(Clone, Copy)]
pub enum Word {
    Text(&'static str),
    Number(u32),
    Tray(Key),
}
