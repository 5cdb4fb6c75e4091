// Demand 3 of what a sheet prints: no code. The commands between two opens, with their lines, as a list of demand 3: specs/. That they
// are one: proofs/.
#![tactic(auto)]
