// The starred examples of document 01. There is no code here: specs/Starred.antt is the table, proofs/Starred.antt its one theorem.
#![tactic(auto)]
