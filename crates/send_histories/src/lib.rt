// What the calls over one body send together. There is no code here: specs/ has the statement, proofs/ that it holds.
#![tactic(auto)]
