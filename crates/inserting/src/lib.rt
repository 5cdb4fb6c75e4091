// The phases in which a put makes a node and links it: make and link. The state is not seen here.
#![tactic(auto)]

pub mod insert;
