// The words of the lent version table. Every read and write of a version goes through these functions.
#![tactic(auto)]

pub mod memory;
pub mod versions;
