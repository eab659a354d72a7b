// Pages: which pages of a column hold a selected row, and the byte or row ranges to fetch for them.
#![tactic(auto)]

mod list;
pub mod page;
mod pass;
mod reads;
pub mod scan;
mod span;
mod store;
mod walk;
