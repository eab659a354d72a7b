// Operations on selections, over any sources and into any sink.
#![tactic(auto)]

pub mod and_then;
pub mod combine;
pub mod combined;
pub mod consecutive;
pub mod equal;
pub mod join;
pub mod narrowed;
pub mod ranges;
pub mod strategy;
