// Bit masks: rows held one bit each, and what is read, counted and searched in them.
#![tactic(auto)]

pub mod count;
pub mod fill;
pub mod indices;
pub mod left;
pub mod making;
pub mod mask;
pub mod mask_word;
pub mod nth;
pub mod search;
pub mod spans;
pub mod walks;
pub mod word;
