// Selection scripts: the command that a line of text says.
#![tactic(auto)]

pub mod command;
mod grammar;
mod head;
mod item;
pub mod parse;
mod tail;

pub use tokens::error::WordError;
