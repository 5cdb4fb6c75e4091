use model::types::{Counts, Process, Progress};

// What a step that is let pass did, and what it leaves of its process, beside the tables and the tally.
#[derive(Clone, Copy)]
pub struct Advanced {
    pub progress: Progress,
    pub process: Process,
    pub counts: Counts,
}
