// Selections cut short: split_off, offset, limit and trim, over any sources and into any sink.
#![tactic(auto)]

pub mod limit;
pub mod offset;
pub mod part;
pub mod rest;
pub mod run_offset;
pub mod split;
pub mod trim;
pub mod trimming;
