// Narrows one trip by the filters of two surveys, and names the pages to fetch, in runs and in masks.
#![tactic(auto)]

mod narrow;
mod picture;
mod report;
mod steps;

use crate::narrow::narrow;
use crate::report::print_report;
use anyhow::{Context, anyhow};
use std::{env, fs};
use stored::room::Room;
use tripfile::fault::TripFault;
use tripfile::read::read_trip;

// The fault of a trip file as the error that the program ends with: one line, which a context would make two of.
fn told(path: &str, fault: TripFault) -> anyhow::Error {
    anyhow!("{path}: {fault}")
}

// The trip file's text, the two ways through it, and what they say.
fn main(rt: HostRuntime) -> anyhow::Result<()> {
    let path = env::args(&rt)?.nth(1).context("usage: trip FILE")?;
    let path = path.as_str();
    let text = fs::read_to_string(&rt, path)?;
    let heap = rt.alloc();
    let trip = read_trip(heap, text.as_str()).map_err(|fault| told(path, fault))?;
    // A result takes no more memory than it needs, so neither form has a bound.
    let in_runs = narrow(heap, &trip, Room::Runs(usize::MAX));
    let in_masks = narrow(heap, &trip, Room::Mask(usize::MAX));
    let runs = in_runs.map_err(|fault| told(path, fault))?;
    let masks = in_masks.map_err(|fault| told(path, fault))?;
    print_report(&rt, &trip, &runs, &masks)?;
    Ok(())
}
