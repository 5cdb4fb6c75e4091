// A step of the store by value: its process advanced on small records, then put into the state. It asks nothing of its arguments:
// what is unlawful is refused, and a refusal changes nothing.
#![tactic(auto)]

mod advance;
pub mod step;
pub mod types;
