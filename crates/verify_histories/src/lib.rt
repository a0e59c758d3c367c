// The histories of link verification. There is no code here: specs/ has what is counted in a history, proofs/ what holds of every one.
#![tactic(auto)]
