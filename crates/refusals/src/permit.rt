// The refusals of each call, in the papers' order: the first condition met decides. Tables are slices of any length here, keys and
// counts any numbers: a struct of them with an invariant, as `Memory`, has what is only found out here.
ghost use Rattle.std.specs.Prelude.{◌≡◌, ◌≤◌, length};
ghost use Rattle.std.specs.List.{list_all};
ghost use Rattle.model.specs.declared.types.Process.{Process};
ghost use Rattle.model.specs.declared.types.State.{State};
ghost use Rattle.model.specs.Roles.{is_idle};
ghost use Rattle.model.specs.Layout.{limits};
ghost use Rattle.model.specs.Calls.{deny_if, open_permit, start_permit, step_permit, look_permit, status_permit, store_of};
ghost use Rattle.model.specs.Inspection.{idle_below, inspect_permit};
ghost use Rattle.layout.specs.Head.{header_words, header_of};
ghost use Rattle.refusals.specs.Agrees.{Agrees};

use layout::head::{HeaderOffsets, header_of};
use limits::lawful::{lawful_key, lawful_length, lawful_state, lawful_store};
use model::types::{Key, Kind, Permit, Process, Refusal, State};
use values::bounds::within;

// This refusal, if its condition is met.
fn refuse_if(met: bool, refusal: Refusal) -> Permit
    ensures { result ≡ deny_if met refusal (Ok tt) }
{
    if met { Err(refusal) } else { Ok(()) }
}

#[tactic(auto, using(crate::proofs::Laws::and_deny), unfolding(model::specs::Calls::open_due))]
pub fn open_permit(nodes: &[u32], versions: &[u32], processes: u32, limit: u32) -> Permit
    ensures { result ≡ open_permit nodes.now versions.now processes limit }
{
    let node_length = lawful_length(State::NODE_WORDS, State::NODES, nodes.len());
    let version_length = lawful_length(State::VERSION_WORDS, State::VERSIONS, versions.len());
    let process_count = within(1, State::PROCESSES, processes);
    let event_limit = within(1, State::EVENTS, limit);
    refuse_if(!node_length, Refusal::NodeLength)
        .and(refuse_if(!version_length, Refusal::VersionLength))
        .and(refuse_if(!process_count, Refusal::ProcessCount))
        .and(refuse_if(!event_limit, Refusal::EventLimit))
}

// `kind` is that of the process's call.
pub fn start_permit(
    h: &[u32],
    kind: Kind,
    nodes: &[u32],
    versions: &[u32],
    process: u32,
    first: Key,
    last: Key,
) -> Permit
    requires { length h.now ≡ header_words }
    ensures { (s : State) → Agrees s process h.now kind → result
        ≡ start_permit s nodes.now versions.now process first last }
{
    let no_process = h[HeaderOffsets::PROCESSES] <= process;
    let keys_in_range = lawful_key(first) & lawful_key(last);
    let idle = kind == Kind::Idle;
    let spent = h[HeaderOffsets::LIMIT] <= h[HeaderOffsets::EVENTS];
    refuse_if(!lawful_store(h, nodes, versions), Refusal::Corrupt)
        .and(refuse_if(no_process, Refusal::NoProcess))
        .and(refuse_if(!keys_in_range, Refusal::BadKey))
        .and(refuse_if(last < first, Refusal::BadRange))
        .and(refuse_if(!idle, Refusal::Busy))
        .and(refuse_if(spent, Refusal::Spent))
}

// `kind` is that of the process's call. Left at the first refusal: it is asked most.
pub fn step_permit(
    h: &[u32],
    kind: Kind,
    nodes: &[u32],
    versions: &[u32],
    tally: &[u32],
    process: u32,
) -> Permit
    requires { length h.now ≡ header_words }
    ensures { (s : State) → Agrees s process h.now kind → result
        ≡ step_permit (store_of s nodes.now versions.now tally.now) process }
{
    if !lawful_store(h, nodes, versions) {
        return Err(Refusal::Corrupt);
    }
    if tally.len() != State::TALLY as usize {
        return Err(Refusal::Corrupt);
    }
    if h[HeaderOffsets::PROCESSES] <= process {
        return Err(Refusal::NoProcess);
    }
    if kind == Kind::Idle {
        return Err(Refusal::NoCall);
    }
    if h[HeaderOffsets::LIMIT] <= h[HeaderOffsets::EVENTS] {
        return Err(Refusal::Spent);
    }
    Ok(())
}

#[tactic(auto, unfolding(model::specs::Calls::look_permit))]
pub fn look_permit(h: &[u32], nodes: &[u32], versions: &[u32], key: Key) -> Permit
    requires { length h.now ≡ header_words }
    ensures { (s : State) → header_of s ≡ h.now → result ≡ look_permit s nodes.now versions.now key }
{
    let lawful = lawful_store(h, nodes, versions);
    let in_range = lawful_key(key);
    refuse_if(!lawful, Refusal::Corrupt).and(refuse_if(!in_range, Refusal::BadKey))
}

#[tactic(auto, unfolding(model::specs::Calls::status_permit))]
pub fn status_permit(h: &[u32], process: u32) -> Permit
    requires { length h.now ≡ header_words }
    ensures { (s : State) → header_of s ≡ h.now → result ≡ status_permit s process }
{
    let no_process = h[HeaderOffsets::PROCESSES] <= process;
    refuse_if(!lawful_state(h), Refusal::Corrupt).and(refuse_if(no_process, Refusal::NoProcess))
}

// Whether none of these processes has a call.
fn all_idle(processes: &[Process]) -> bool
    ensures { result ≡ list_all (λ (p : Process). is_idle p.call.kind) processes.now }
{
    processes.iter().all(|p| p.call.kind == Kind::Idle)
}

// Whether none of the first `n` processes has a call.
#[tactic(auto, using(crate::proofs::Laws::idle_all))]
fn idle_below(s: State, n: u32) -> bool
    requires { n ≤ limits.processes }
    ensures { result ≡ idle_below s n }
{
    all_idle(&s.process[..n as usize])
}

#[tactic(auto, unfolding(model::specs::Inspection::inspect_permit))]
pub fn inspect_permit(s: State, nodes: &[u32], versions: &[u32]) -> Permit
    ensures { result ≡ inspect_permit s nodes.now versions.now }
{
    let h = header_of(s);
    if !lawful_store(&h, nodes, versions) {
        return Err(Refusal::Corrupt);
    }
    if !idle_below(s, s.processes) {
        return Err(Refusal::Busy);
    }
    Ok(())
}
