// Plays a sheet: commands from standard input, a line for each on standard output.
#![tactic(auto)]

mod input;
mod pages;
mod retry;
mod types;

use crate::pages::run;
use buffers::types::Buffers;

// How many bytes are read at once at most, and how many a page has.
const PIECE: usize = 65_536;

// Fixed memory: no table, no piece and no page comes from a heap.
fn main(rt: HostRuntime) {
    let mut nodes = [0u32; Buffers::NODES];
    let mut versions = [0u32; Buffers::VERSIONS];
    let mut tally = [0u32; Buffers::TALLY];
    let mut bytes = [0u8; PIECE];
    let mut out = [0u8; PIECE];
    run(
        &rt,
        &mut bytes,
        &mut nodes,
        &mut versions,
        &mut tally,
        &mut out,
    );
}
