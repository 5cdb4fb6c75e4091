// A run of the program.
use interpreter::types::Needs;
use model::types::State;

// A run between two rounds: the store's state, where the bytes that were read and not played begin and end, whether the input
// has ended with them, where the lines of its page end, and what the run needs. Positions and no slices, since a round moves those bytes in
// their buffer; so `Ready` is a clause of it and the buffer's length, and no invariant. No `Played` in it: that counts from the first byte held.
#[derive(Clone, Copy)]
pub struct Run {
    pub state: State,
    pub from: usize,
    pub end: usize,
    pub ended: bool,
    pub next: usize,
    pub needs: Needs,
}

// A call that moves bytes failed, which was told on standard error.
#[derive(Clone, Copy)]
pub struct Failed;

// What a read brings: so many bytes, or none at the end of the input.
pub type Input = Result<Option<usize>, Failed>;
