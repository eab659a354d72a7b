// The refusals of the library: one enum for each layer, and what each says of itself.
#![tactic(auto)]

pub mod fault;
pub mod refusal;
pub mod tell;
