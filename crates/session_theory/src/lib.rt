// The theory of a session's parts: definitions in specs/, lemmas in proofs/.
#![tactic(auto)]
