// The marked examples of document 01. There is no code here: specs/ has the table, proofs/ the one statement that it holds.
#![tactic(auto)]
