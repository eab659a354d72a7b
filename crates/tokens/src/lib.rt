// The words of a line, and the numbers and bytes that a word writes.
#![tactic(auto)]

pub mod error;
pub mod hex;
pub mod number;
pub mod word;
pub mod words;
