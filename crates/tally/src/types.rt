// Finished calls of each answer that is counted, in the order of `Answer`.
#[derive(Clone, Copy)]
pub struct Tally {
    pub too_old: u32,
    pub versions_full: u32,
    pub added: u32,
    pub keys_full: u32,
    pub new: u32,
    pub found: u32,
    pub none: u32,
}
