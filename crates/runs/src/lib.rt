// Runs: sources that hand rows out run by run, places that take them, and the way from one to the other.
#![tactic(auto)]

pub mod append;
pub mod convert;
pub mod counts;
pub mod deliver;
pub mod either_source;
pub mod held;
pub mod pieces;
pub mod place;
pub mod raw;
pub mod run_list;
pub mod run_place;
pub mod run_sink;
pub mod run_source;
pub mod sink;
pub mod source;
