// Where a run stands.
use model::types::State;

// What a run needs before it can go on. `Nothing` is one of four and no None: `needing`, `goes_on` and `is_over` take all four alike, and no
// code takes a need out of an Option.
#[derive(Clone, Copy, PartialEq, Eq)]
pub enum Needs {
    Nothing,
    Page, // one with room for a line
    Bytes, // of the sheet
    Over, // it does not go on
}

// Where a run of commands stands: the state, how many bytes were played, the position after what was printed, and what it
// needs. Positions and no slices: the next round has other bytes, and its page is the caller's.
#[derive(Clone, Copy)]
pub struct Played {
    pub state: State,
    pub read: usize,
    pub next: usize,
    pub needs: Needs,
}
