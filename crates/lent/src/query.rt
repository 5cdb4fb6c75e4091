// Look, inspection and standing: each tests and reads its own part of the state, and nothing is written.
ghost use Rattle.std.specs.Prelude.{◌≡◌};
ghost use Rattle.lent.specs.Calls.{look_in, inspect_in, status_in};

use inspection::inspect::inspect;
use layout::head::HeadOffsets;
use layout::state::{counts_in, is_head, is_state_at, is_state_below_count, process_at, state_in};
use model::types::{Inspecting, Key, Looking, Refusal, Status};
use process::types::Sizes;
use process::words::process_in;
use queries::look::look_granted;
use queries::status::standing;
use refusals::permit::{look_permit, status_permit};

// The version of a key that lies `back` places behind its newest. It reads the head and no process.
pub fn look_in(words: &[u32], nodes: &[u32], versions: &[u32], key: Key, back: u32) -> Looking
    ensures { result ≡ look_in words.now nodes.now versions.now key back }
{
    if !is_head(words) {
        return Err(Refusal::Corrupt);
    }
    look_permit(
        &words[HeadOffsets::HEADER..Sizes::HEAD],
        nodes,
        versions,
        key,
    )?;
    let counts = counts_in(words.as_array().unwrap());
    look_granted(counts, nodes, versions, key, back)
}

// Sound, or the level and the node reached at the first fault. The state is decoded: an inspection is long beside that.
#[tactic(auto, unfolding(crate::specs::Calls::inspect_in))]
pub fn inspect_in(words: &[u32], nodes: &[u32], versions: &[u32]) -> Inspecting
    ensures { result ≡ inspect_in words.now nodes.now versions.now }
{
    if !is_state_below_count(words) {
        return Err(Refusal::Corrupt);
    }
    let s = state_in(words.as_array().unwrap());
    inspect(s, nodes, versions)
}

// What a process does. It is lent no tables, so that their lengths are not compared with those in the state.
pub fn status_in(words: &[u32], process: u32) -> Status
    ensures { result ≡ status_in words.now process }
{
    if !is_state_at(words, process) {
        return Err(Refusal::Corrupt);
    }
    status_permit(&words[HeadOffsets::HEADER..Sizes::HEAD], process)?;
    let of = process_at(words.as_array().unwrap(), process);
    standing(process_in(of))
}
