// What the proofs of all crates share about tests. There is no code here.
#![tactic(auto)]
