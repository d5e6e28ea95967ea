// When two records expand to one file, and the normal form of a record, which its file tells. Nothing is coded here: the definitions stand in
// specs/, and what is proved of them in proofs/.
#![tactic(auto)]
