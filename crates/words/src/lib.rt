// Masks combined, cut, joined and compared by 64-bit words.
#![tactic(auto)]

pub mod combine;
pub mod combined;
pub mod cut;
pub mod join;
pub mod joined;
pub mod mask;
pub mod offset;
pub mod same;
pub mod sink;
pub mod skipped;
pub mod splice;
pub mod split;
pub mod word_rows;
pub mod word_runs;
