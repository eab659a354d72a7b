// Examples and edges of every public call, run as tests; the crate has no code of its own.
#![tactic(auto)]

#[cfg(test)]
mod bit_rows;
#[cfg(test)]
mod keeping;
#[cfg(test)]
mod narrowing;
#[cfg(test)]
mod page_lists;
#[cfg(test)]
mod places;
#[cfg(test)]
mod script_lines;
#[cfg(test)]
mod shots;
#[cfg(test)]
mod told;
#[cfg(test)]
mod trips;
