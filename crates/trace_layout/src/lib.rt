// Contents laid out as a trace, and anything that is read record by record, read to its end. There is no code here: specs/ has the layout and
// the reading, proofs/ that what is laid out is read back, and that a trace read to its end is its contents laid out.
#![tactic(auto)]
