// Masks as sources and sinks of rows, so that they serve wherever runs do.
#![tactic(auto)]

pub mod fill;
pub mod iter;
pub mod place;
pub mod sink;
pub mod source;
