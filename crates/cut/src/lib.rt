// A theory alone: how any format of records is read in pieces. It is said in specs/ and proved in proofs/.
#![tactic(auto)]
