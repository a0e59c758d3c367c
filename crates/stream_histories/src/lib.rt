// What holds of the second receiver over any sequence of octets and ends. There is no code here: specs/ has the statement, proofs/ its proof, over
// the definitions that the promises of stream and receive cite.
#![tactic(auto)]
