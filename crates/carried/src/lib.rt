// What an equivalent file carries of the record that it was made from, and how it is read from the file. Nothing is coded here: the definitions
// stand in specs/, and what is proved of them in proofs/.
#![tactic(auto)]
