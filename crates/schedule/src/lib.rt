// What holds of every gate control list that is accepted. There is no code here: proofs/ has both round trips, and its events and their times.
#![tactic(auto)]
