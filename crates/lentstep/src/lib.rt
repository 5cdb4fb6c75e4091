// A step on lent words: one process and the counts are read and written where they stand, through the same core as by value. It decodes no
// state, and no whole process: that was tried, and cost a step 7 to 13 instructions more (docs/DECISIONS.md).
#![tactic(auto)]

pub mod step;
