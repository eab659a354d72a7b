// Combining policies: a function of two row marks, on marks and on words, and the laws that all of them keep.
#![tactic(auto)]

pub mod both;
pub mod order;
pub mod policy;
