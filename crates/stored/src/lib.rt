// Selections that own their memory, for programs.
#![tactic(auto)]

pub mod bytes;
pub mod held;
pub mod operation;
pub mod perform;
pub mod room;
pub mod split;
pub mod stored_runs;
pub mod trouble;
