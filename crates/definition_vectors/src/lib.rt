// Whole calls against the bits that the Rust gives for them. It has no code.
#![tactic(auto)]
