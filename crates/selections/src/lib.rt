// Selections as runs or as a mask, with the operations on them, and the states that they go through before they are read.
#![tactic(auto)]

pub mod both;
pub mod cutting;
pub mod form;
pub mod reads;
pub mod source;
pub mod states;
