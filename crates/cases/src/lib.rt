// No code: document 01's cases and those of altered memory, each in one table over the definitions (proofs/).
#![tactic(auto)]
