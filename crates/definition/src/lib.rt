// The specification: every definition stands in specs/, with the tables that hold it; proofs/ computes the tables. It has no code.
#![tactic(auto)]
