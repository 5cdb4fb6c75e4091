// Small functions of the model's values, each once: bounds, the halves of a key, and what differs by kind and by answer.
#![tactic(auto)]

pub mod bounds;
pub mod halves;
pub mod roles;
