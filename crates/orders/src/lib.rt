// Mathematics only: there is no code here. The definitions are in specs/, the theorem is in proofs/, and the Lib.antt of each is its table
// of contents.
#![tactic(auto)]
