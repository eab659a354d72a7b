// Trip files: what they hold, and what is wrong with one that cannot be read.
#![tactic(auto)]

pub mod fault;
mod fields;
pub mod read;
pub mod trip;
