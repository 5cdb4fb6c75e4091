// Figure 1 of document 001 over the store: no code. The procedures stand in specs/, what a call that is stepped alone does in proofs/.
#![tactic(auto)]
