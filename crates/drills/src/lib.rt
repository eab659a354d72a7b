// Examples and edges of combining, joining and cutting, of ranges, and of selections that own their memory, run as tests; the crate has no code of its own.
#![tactic(auto)]

#[cfg(test)]
mod combining;
#[cfg(test)]
mod cutting;
#[cfg(test)]
mod given;
#[cfg(test)]
mod joining;
#[cfg(test)]
mod owned;
#[cfg(test)]
mod ranging;
#[cfg(test)]
mod splitting;
#[cfg(test)]
mod states;
