// The store whose tables stand at the start of a sheet's buffers, and each call on it with the line that it prints.
#![tactic(auto)]

mod lend;
pub mod store_calls;
pub mod types;
