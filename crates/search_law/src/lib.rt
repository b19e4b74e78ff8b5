// What a search answers and refuses, and what it promises: the law in specs/, lemmas on its writes in proofs/.
#![tactic(auto)]

pub mod outcome;
pub mod refusal;
