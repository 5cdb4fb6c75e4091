// The inspection of an idle store: it changes nothing.
#![tactic(auto)]

mod faults;
pub mod inspect;
mod tops;
