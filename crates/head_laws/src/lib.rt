// What a head says of octets that lost some of their preamble, and of more octets than any mFrame has. There is no code here: specs/ has what the
// second says, proofs/ that both hold.
#![tactic(auto)]
