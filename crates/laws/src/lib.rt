// A crate of laws: they stand in specs/, and other crates cite them from there. It has no code.
#![tactic(auto)]
