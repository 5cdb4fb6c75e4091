// The phase in which a put adds a version to a node: update. The state is not seen here.
#![tactic(auto)]

pub mod update;
