// One command of a sheet from its bytes.
#![tactic(auto)]

pub mod decode;
pub mod types;
