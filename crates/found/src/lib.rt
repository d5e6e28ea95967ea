// The record found in a file, and when a file is the expansion of a record. Nothing is coded here: the definitions stand in specs/, and what is
// proved of them in proofs/.
#![tactic(auto)]
