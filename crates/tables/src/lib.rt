// The words of a table of records, those of the lent node table, and that table as an opening leaves it. Every read and write of a
// node goes through these functions.
#![tactic(auto)]

pub mod fresh;
pub mod nodes;
pub mod records;
