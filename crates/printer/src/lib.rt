// One line of a sheet's output: its bytes in a lent buffer.
#![tactic(auto)]

pub mod print;
mod text;
pub mod types;
