// The moves that a phase makes, and the phases that search, on small records and the lent tables. The state is not seen here.
#![tactic(auto)]

pub mod moves;
pub mod search;
