// Text on its way out: bytes, numbers and entries of lists laid on a page. What is not promised: the digits of a float.
#![tactic(auto)]

pub mod text;
