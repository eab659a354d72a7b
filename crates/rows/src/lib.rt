// The meaning of the library: rows, runs, and the rules that every call follows.
#![tactic(auto)]

pub mod chunk;
pub mod limit;
pub mod range;
pub mod said;
pub mod selector;
pub mod strategy;
