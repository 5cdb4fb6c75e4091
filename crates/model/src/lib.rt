// The types of the store, by value. Their meaning stands in specs/, what follows from it in proofs/.
#![tactic(auto)]

pub mod types;
