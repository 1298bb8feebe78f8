// Laws about the definition, which other crates' proofs cite. It has no code.
#![tactic(auto)]
