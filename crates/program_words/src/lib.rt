// What stands in a text: words in a list, numbers. What is not promised: the value of a real number.
#![tactic(auto)]

pub mod numbers;
pub mod words;
