// The link between two ports (demand 3). There is no code here: specs/ has the statement, proofs/ that it holds.
#![tactic(auto)]
