// No code: demand 3 of the store by value, and of any system that answers as another does (proofs/). The statement stands in `model`.
#![tactic(auto)]
