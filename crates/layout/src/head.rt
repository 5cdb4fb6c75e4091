// The head of a state: the layout's own number, then the header, which is what the refusals read of a state.
ghost use Rattle.std.specs.Prelude.{◌≡◌};
ghost use Rattle.layout.specs.Head.{header_offsets, head_offsets, header_of};

use model::types::State;

// The header's word of a state that is open; a closed one's is 0. A number of the layout: any other is no state's (`known_head`).
pub const OPEN: u32 = 1;

// Where each word of the header stands: whether the state is open, processes, limit, events, lengths of both tables, nodes and
// versions in use.
#[derive(Clone, Copy)]
pub struct HeaderOffsets {
    pub opened: usize,
    pub processes: usize,
    pub limit: usize,
    pub events: usize,
    pub nodelength: usize,
    pub versionlength: usize,
    pub nodes: usize,
    pub versions: usize,
}

impl HeaderOffsets {
    pub const OPENED: usize = 0;

    pub const PROCESSES: usize = 1;

    pub const LIMIT: usize = 2;

    pub const EVENTS: usize = 3;

    pub const NODE_LENGTH: usize = 4;

    pub const VERSION_LENGTH: usize = 5;

    pub const NODES: usize = 6;

    pub const VERSIONS: usize = 7;
    // How many they are.
    pub const WORDS: usize = 8;

    // Never called: it ties the constants to the definition `header_offsets`, whose record is of this type alone.
    pub fn words() -> Self
        ensures { result ≡ header_offsets }
    {
        Self {
            opened: Self::OPENED,
            processes: Self::PROCESSES,
            limit: Self::LIMIT,
            events: Self::EVENTS,
            nodelength: Self::NODE_LENGTH,
            versionlength: Self::VERSION_LENGTH,
            nodes: Self::NODES,
            versions: Self::VERSIONS,
        }
    }
}

// Where the two parts of the head begin.
#[derive(Clone, Copy)]
pub struct HeadOffsets {
    pub version: usize,
    pub header: usize,
}

impl HeadOffsets {
    pub const VERSION: usize = 0;

    pub const HEADER: usize = 1;
    // The header's words, in the head.
    pub const OPENED: usize = Self::HEADER + HeaderOffsets::OPENED;

    pub const PROCESSES: usize = Self::HEADER + HeaderOffsets::PROCESSES;

    pub const LIMIT: usize = Self::HEADER + HeaderOffsets::LIMIT;

    pub const EVENTS: usize = Self::HEADER + HeaderOffsets::EVENTS;

    pub const NODE_LENGTH: usize = Self::HEADER + HeaderOffsets::NODE_LENGTH;

    pub const VERSION_LENGTH: usize = Self::HEADER + HeaderOffsets::VERSION_LENGTH;

    pub const NODES: usize = Self::HEADER + HeaderOffsets::NODES;

    pub const VERSIONS: usize = Self::HEADER + HeaderOffsets::VERSIONS;

    // Never called: it ties the constants to the definition `head_offsets`, whose record is of this type alone.
    pub fn words() -> Self
        ensures { result ≡ head_offsets }
    {
        Self {
            version: Self::VERSION,
            header: Self::HEADER,
        }
    }
}

// The header of a state by value.
pub fn header_of(s: State) -> [u32; HeaderOffsets::WORDS]
    ensures { result ≡ header_of s }
{
    [
        u32::from(s.opened),
        s.processes,
        s.limit,
        s.events,
        s.lengths.nodes,
        s.lengths.versions,
        s.counts.nodes,
        s.counts.versions,
    ]
}
