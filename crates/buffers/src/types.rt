// What a command leaves, and the buffers that a session takes.
ghost use Rattle.std.specs.Prelude.{◌≡◌};
ghost use Rattle.buffers.specs.Session.{buffers};

use model::types::State;
use printer::types::Line;

// The line of a command and the state after it, beside the buffers. No `Answered`: a line is no outcome, and definitions name it (`done`).
#[derive(Clone, Copy)]
pub struct Performed {
    pub line: Line,
    pub state: State,
}

// Words to lend for both tables and the tally.
#[derive(Clone, Copy)]
pub struct Buffers {
    pub nodes: usize,
    pub versions: usize,
    pub tally: usize,
}

impl Buffers {
    // One record more than the greatest lawful table has: a table that is too long can be asked for, and is refused.
    pub const NODES: usize = State::NODE_WORDS as usize * (State::NODES as usize + 2);

    pub const VERSIONS: usize = State::VERSION_WORDS as usize * (State::VERSIONS as usize + 2);

    pub const TALLY: usize = State::TALLY as usize;

    // Never called: no clause stands at a constant, so this ties them to the definitions.
    pub fn sizes() -> Self
        ensures { result ≡ buffers }
    {
        Self {
            nodes: Self::NODES,
            versions: Self::VERSIONS,
            tally: Self::TALLY,
        }
    }
}
