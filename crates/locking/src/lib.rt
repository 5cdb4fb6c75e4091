// The phases that take and free a lock, on small records and the lent node table. The state is not seen here.
#![tactic(auto)]

pub mod lock;
