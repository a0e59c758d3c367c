// What holds of a receiver that was given any octets at all, one mFrame after the other. There is no code here: specs/ has the statement,
// proofs/ its proof, over the definitions that the promise of receive cites.
#![tactic(auto)]
