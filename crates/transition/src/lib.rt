// One step of one call: its process tested, then the step of its phase. The state is not seen here.
#![tactic(auto)]

mod lawful;
pub mod step;
