// The capture for eyes beside the plain one. There is no code here: specs/ says which octets are check octets of fragments, V and R, and what a trace
// without those is; proofs/ has that the two captures differ in these octets only, and in none without such mFrames, and over which octets the check
// of a fragment is.
#![tactic(auto)]
