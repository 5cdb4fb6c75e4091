// Commands of a sheet one after another: from the bytes read so far to a page of lines.
#![tactic(auto)]

pub mod play;
pub mod types;
