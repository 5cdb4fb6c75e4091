// The phase of a scan that shows what it meets, on small records and the lent tables. The state is not seen here.
#![tactic(auto)]

pub mod follow;
