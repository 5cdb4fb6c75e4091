// One command of a sheet: whether it is performed, what it does to the store in its buffers, and the line that it prints.
#![tactic(auto)]

pub mod perform;
