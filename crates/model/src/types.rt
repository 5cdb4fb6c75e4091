// The state of the store and the outcome of each call, by value.
ghost use Rattle.std.specs.Prelude.{◌≡◌};
ghost use Rattle.model.specs.Layout.{limits, node_offsets, version_offsets};
ghost use Rattle.model.specs.State.{idle_process, fresh_state, closed_state};

// The width of a key is said here; that it takes two words, in values/src/halves.rt.
pub type Key = u64;

// What a process was asked for; `Idle` where it has no call. No Option of three: a word tells one of the four (`kinds`, `kind_from`).
#[derive(Clone, Copy, Default, PartialEq, Eq)]
pub enum Kind {
    #[default]
    Idle,
    Put,
    Get,
    Scan, // document 02's sweep
}

// Where a call stands. The comment names the procedure of figure 1 that the phase is a part of.
#[derive(Clone, Copy, Default, PartialEq, Eq)]
pub enum Phase {
    #[default]
    Walk, // findAll
    Read, // get
    Seek, // findLock: the search
    Lock, // findLock: the lock
    Check, // findLock: the second look, under the lock
    Update, // update
    Make, // createAndLink
    Link, // link
    Release, // tryInsert, insert: release; insertAll: the next level
    Follow, // a scan's own, which figure 1 does not have
}

// What a phase is for: which kinds go through it goes by this.
#[derive(Clone, Copy, PartialEq, Eq)]
pub enum Role {
    Searching, // every call's
    Reading, // a get's
    Writing, // a put's
    Releasing, // a put's, once it has its answer
    Following, // a scan's
}

// Document 01's answers, in the order in which its plain ledger names them, and behind them the one that no tally counts.
#[derive(Clone, Copy, Default, PartialEq, Eq)]
pub enum Answer {
    TooOld,
    VersionsFull,
    Added,
    KeysFull,
    New,
    Found,
    #[default]
    None,
    Swept,
}

// Whose an answer is: what goes with it, and what may follow it, goes by this.
#[derive(Clone, Copy, PartialEq, Eq)]
pub enum Class {
    Inserted, // a put's that made its node
    OtherPut, // a put's that made none
    Hit, // a get's with a version
    Miss, // a get's without one
    Scanned, // a scan's
}

// Document 01's refusals 1 to 16, in its order, and document 02's behind them.
#[derive(Clone, Copy, PartialEq, Eq)]
pub enum Refusal {
    NodeLength = 1,
    VersionLength,
    ProcessCount,
    EventLimit,
    NoProcess,
    BadKey,
    Busy,
    NoCall,
    Spent,
    Corrupt,
    Damaged,
    NoKey,
    NoVersion,
    NotOpen,
    UnknownCommand,
    CutShort,
    BadRange,
}

// What was asked, and the tick of its start: no step changes it. A scan's keys are `key` to `last`; a put and a get have one, their
// first and their last.
#[derive(Clone, Copy, Default)]
pub struct Call {
    pub kind: Kind,
    pub key: Key,
    pub last: Key,
    pub value: u32,
    pub timestamp: u32,
    pub top: u32,
    pub start: u32,
}

// Where the call stands: document 01's level L, node p and new node.
#[derive(Clone, Copy, Default)]
pub struct Cursor {
    pub phase: Phase,
    pub level: u32,
    pub pred: u32,
    pub made: u32,
}

// The linearization point of the call, once it is there; its tick is 0 before. No Option: both are words of the layout, and
// `process_back` gives back an answer that stands beside tick 0.
#[derive(Clone, Copy, Default)]
pub struct Effect {
    pub answer: Answer,
    pub tick: u32,
}

// Document 01's station. `preds` has the node remembered at each level.
#[derive(Clone, Copy, Default)]
pub struct Process {
    pub call: Call,
    pub cursor: Cursor,
    pub effect: Effect,
    pub preds: [u32; State::LEVELS],
}

// Nodes (the head not counted) and versions in use.
#[derive(Clone, Copy, Default)]
pub struct Counts {
    pub nodes: u32,
    pub versions: u32,
}

// Lengths of the lent tables, in words. Not one type with `Counts`: records in use and words lent are told apart by it.
#[derive(Clone, Copy, Default)]
pub struct Lengths {
    pub nodes: u32,
    pub versions: u32,
}

// No Option of an open state: `closed_state` has all the fields, and `opened` is a word of the header (`header_of`). No Vec: no heap,
// so there are eight processes, of which the first `processes` may be used.
#[derive(Clone, Copy)]
pub struct State {
    pub opened: bool,
    pub processes: u32,
    pub limit: u32,
    pub events: u32,
    pub lengths: Lengths,
    pub counts: Counts,
    pub process: [Process; State::PROCESSES as usize],
}

// A version of a key's value: document 01's reading.
#[derive(Clone, Copy, Default)]
pub struct Version {
    pub value: u32,
    pub timestamp: u32,
}

// What a scan shows of a node: its key and its newest version.
#[derive(Clone, Copy)]
pub struct Item {
    pub key: Key,
    pub version: Version,
}

// Where a node's link leads, against a key. `Unused` is no Err: each phase tells four cases apart in one match, and hands none on.
#[derive(Clone, Copy)]
pub enum Ahead {
    Unused, // to a node that is not in use
    Less(u32), // to this node, with a smaller key
    Equal(u32), // to this node, with the key
    Past, // to the end, or to a greater key
}

// What a phase asks of the process. `Refuse` is no Err: laws and definitions take one of seven moves, of a Result each would match twice.
#[derive(Clone, Copy)]
pub enum Move {
    Refuse, // damage
    Wait, // the lock is held
    Go(Cursor), // the cursor moves
    Note(Cursor), // the same, and the predecessor is remembered at its level
    Commit(Cursor, Answer), // the put takes effect with this answer
    Show(Cursor, Item), // the cursor moves to this node, which is shown
    End(Answer, Version, u32), // the call ends with this answer, version and effect tick
}

// The call may go on, or is refused.
pub type Permit = Result<(), Refusal>;

// What the finishing step tells of a call.
#[derive(Clone, Copy)]
pub struct Finish {
    pub kind: Kind,
    pub answer: Answer,
    pub value: u32,
    pub timestamp: u32,
    pub start: u32,
    pub effect: u32,
    pub finish: u32,
}

// What an accepted step did. Each but the last names the tick of its event first.
#[derive(Clone, Copy)]
pub enum Progress {
    Moved(u32),
    Waited(u32), // at a held lock
    Shown(u32, Item),
    Finished(Finish),
}

// Outcomes of opening, of a start, which tells its tick, and of a step.
pub type Opening = Result<(), Refusal>;

pub type Starting = Result<u32, Refusal>;

pub type Stepping = Result<Progress, Refusal>;

// What a call answers, and the state that it leaves.
#[derive(Clone, Copy)]
pub struct Answered<T> {
    pub outcome: Result<T, Refusal>,
    pub state: State,
}

pub type OpenResult = Answered<()>;

pub type StartResult = Answered<u32>;

pub type StepResult = Answered<Progress>;

// What a look shows.
pub type Looking = Result<Version, Refusal>;

// The level and the node that an inspection reached.
#[derive(Clone, Copy)]
pub struct Fault {
    pub level: u32,
    pub node: u32,
}

// Document 01's inspection: no fault, or the first.
pub type Inspecting = Result<Option<Fault>, Refusal>;

// A call that runs: its kind, start tick and effect tick.
#[derive(Clone, Copy)]
pub struct Running {
    pub kind: Kind,
    pub start: u32,
    pub effect: u32,
}

// Document 01's standing: idle, or the call that runs.
pub type Status = Result<Option<Running>, Refusal>;

// The sizes and limits of document 01 as numbers, for whoever lends memory.
#[derive(Clone, Copy)]
pub struct Limits {
    pub nodewords: u32,
    pub versionwords: u32,
    pub top: u32,
    pub nodes: u32,
    pub versions: u32,
    pub processes: u32,
    pub events: u32,
    pub key: Key,
    pub tally: u32,
    pub count: u32,
}

// Where each word of a node stands among its words; `links` and `locks` are those of level 0, and the other levels follow.
#[derive(Clone, Copy)]
pub struct NodeOffsets {
    pub keylow: usize,
    pub newest: usize,
    pub top: usize,
    pub keyhigh: usize,
    pub links: usize,
    pub locks: usize,
}

// Where each word of a version stands.
#[derive(Clone, Copy)]
pub struct VersionOffsets {
    pub value: usize,
    pub timestamp: usize,
    pub prev: usize,
}

impl Kind {
    // How many kinds there are.
    pub const KINDS: u32 = 4;
}

impl Phase {
    // How many phases there are.
    pub const PHASES: u32 = 10;
}

impl Answer {
    // How many answers there are, counted or not.
    pub const ANSWERS: u32 = 8;
}

impl Process {
    // A process without a call.
    pub fn idle() -> Self
        ensures { result ≡ idle_process }
    {
        Self::default()
    }
}

impl State {
    // Words of a node and of a version.
    pub const NODE_WORDS: u32 = 16;

    pub const VERSION_WORDS: u32 = 3;
    // The highest level, and how many there are.
    pub const TOP: u32 = 5;

    pub const LEVELS: usize = State::TOP as usize + 1;
    // At most so many nodes, versions, processes and events, and the greatest key.
    pub const NODES: u32 = 1023;

    pub const VERSIONS: u32 = 4095;

    pub const PROCESSES: u32 = 8;

    pub const EVENTS: u32 = 1000000000;

    pub const KEY: Key = 18446744073709551614;

    // Counts of a tally, one for each answer that it counts, and the greatest count: it stays there.
    pub const TALLY: u32 = 7;

    pub const COUNT: u32 = 4294967295;

    // Never called: it ties the constants to the definition `limits`, whose record is of this type alone.
    pub fn limits() -> Limits
        ensures { result ≡ limits }
    {
        Limits {
            nodewords: Self::NODE_WORDS,
            versionwords: Self::VERSION_WORDS,
            top: Self::TOP,
            nodes: Self::NODES,
            versions: Self::VERSIONS,
            processes: Self::PROCESSES,
            events: Self::EVENTS,
            key: Self::KEY,
            tally: Self::TALLY,
            count: Self::COUNT,
        }
    }

    // The state that an accepted opening leaves.
    pub fn fresh(processes: u32, limit: u32, lengths: Lengths) -> Self
        ensures { result ≡ fresh_state processes limit lengths }
    {
        Self {
            opened: true,
            processes,
            limit,
            events: 0,
            lengths,
            counts: Counts::default(),
            process: [Process::idle(); Self::PROCESSES as usize],
        }
    }

    // The state that a refused opening gives.
    pub fn closed() -> Self
        ensures { result ≡ closed_state }
    {
        Self {
            opened: false,
            ..Self::fresh(0, 0, Lengths::default())
        }
    }
}

impl NodeOffsets {
    pub const KEY_LOW: usize = 0;

    pub const NEWEST: usize = 1;

    pub const TOP: usize = 2;

    pub const KEY_HIGH: usize = 3;

    pub const LINKS: usize = 4;

    pub const LOCKS: usize = 10;

    // Never called: it ties the constants to the definition `node_offsets`, whose record is of this type alone.
    pub fn words() -> Self
        ensures { result ≡ node_offsets }
    {
        Self {
            keylow: Self::KEY_LOW,
            newest: Self::NEWEST,
            top: Self::TOP,
            keyhigh: Self::KEY_HIGH,
            links: Self::LINKS,
            locks: Self::LOCKS,
        }
    }
}

impl VersionOffsets {
    pub const VALUE: usize = 0;

    pub const TIMESTAMP: usize = 1;

    pub const PREV: usize = 2;

    // Never called: it ties the constants to the definition `version_offsets`, whose record is of this type alone.
    pub fn words() -> Self
        ensures { result ≡ version_offsets }
    {
        Self {
            value: Self::VALUE,
            timestamp: Self::TIMESTAMP,
            prev: Self::PREV,
        }
    }
}
