// Shots of a survey trip, and the filters that judge them.
#![tactic(auto)]

pub mod filter;
pub mod judge;
pub mod keep;
pub mod shot;
