// The layout of the state's words: this many of each part, in this order.
ghost use Rattle.std.specs.Prelude.{◌≡◌};
ghost use Rattle.process.specs.ProcessWords.{sizes, process_offsets};

#[derive(Clone, Copy)]
pub struct Sizes {
    pub version: u32,
    pub head: usize,
    pub process: usize,
    pub state: usize,
}

impl Sizes {
    // The layout's own number, word 0. Another layout has another.
    pub const VERSION: u32 = 3;
    // Words before the first process.
    pub const HEAD: usize = 9;

    pub const PROCESS: usize = 21;

    pub const STATE: usize = 177;

    // Never called: it ties the constants to the definition `sizes`, whose record is of this type alone.
    pub fn words() -> Self
        ensures { result ≡ sizes }
    {
        Self {
            version: Self::VERSION,
            head: Self::HEAD,
            process: Self::PROCESS,
            state: Self::STATE,
        }
    }
}

// Where each word of a process stands among its words; `preds` is that of level 0, and the other levels follow.
#[derive(Clone, Copy)]
pub struct ProcessOffsets {
    pub kind: usize,
    pub keylow: usize,
    pub keyhigh: usize,
    pub lastlow: usize,
    pub lasthigh: usize,
    pub value: usize,
    pub timestamp: usize,
    pub top: usize,
    pub start: usize,
    pub phase: usize,
    pub level: usize,
    pub pred: usize,
    pub made: usize,
    pub answer: usize,
    pub tick: usize,
    pub preds: usize,
}

impl ProcessOffsets {
    pub const KIND: usize = 0;

    pub const KEY_LOW: usize = 1;

    pub const KEY_HIGH: usize = 2;

    pub const LAST_LOW: usize = 3;

    pub const LAST_HIGH: usize = 4;

    pub const VALUE: usize = 5;

    pub const TIMESTAMP: usize = 6;

    pub const TOP: usize = 7;

    pub const START: usize = 8;

    pub const PHASE: usize = 9;

    pub const LEVEL: usize = 10;

    pub const PRED: usize = 11;

    pub const MADE: usize = 12;

    pub const ANSWER: usize = 13;

    pub const TICK: usize = 14;

    pub const PREDS: usize = 15;

    // Never called: it ties the constants to the definition `process_offsets`, whose record is of this type alone.
    pub fn words() -> Self
        ensures { result ≡ process_offsets }
    {
        Self {
            kind: Self::KIND,
            keylow: Self::KEY_LOW,
            keyhigh: Self::KEY_HIGH,
            lastlow: Self::LAST_LOW,
            lasthigh: Self::LAST_HIGH,
            value: Self::VALUE,
            timestamp: Self::TIMESTAMP,
            top: Self::TOP,
            start: Self::START,
            phase: Self::PHASE,
            level: Self::LEVEL,
            pred: Self::PRED,
            made: Self::MADE,
            answer: Self::ANSWER,
            tick: Self::TICK,
            preds: Self::PREDS,
        }
    }
}
