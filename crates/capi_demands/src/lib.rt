// The theorems over lists of exported calls: the statements stand in specs/, their proofs in proofs/. It has no code.
#![tactic(auto)]
