// Selections worked out by hand, proved from the rules.
#![tactic(auto)]

pub mod table;
