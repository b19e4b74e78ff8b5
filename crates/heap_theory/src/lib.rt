// The theory of binary heaps: definitions in specs/, lemmas in proofs/.
#![tactic(auto)]
