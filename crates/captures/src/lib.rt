// What holds of every trace and of every capture. There is no code here: specs/ has a capture in the other byte order, proofs/ the way there and
// back, the lengths that are known before, and that a capture reads the same in both orders.
#![tactic(auto)]
