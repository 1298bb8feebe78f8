// The theorems over the definition: the statements stand in specs/, their proofs in proofs/. It has no code.
#![tactic(auto)]
