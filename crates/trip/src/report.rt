// What the program says of a trip.
use crate::narrow::Found;
use crate::picture::{pages_line, rows_line};
use crate::steps::{Step, Surveyed};
use pages::page::ByteRange;
use rows::range::RowRange;
use std::io;
use tripfile::trip::{Column, Survey, Trip};

// Rows to a line of the picture.
const WIDTH: usize = 64;

fn print_step(rt: &HostRuntime, step: &Step, of: usize) -> io::Result<()> {
    let kept = step.kept;
    print!(rt; "{kept} of {of} rows kept:")?;
    for run in step.runs.iter() {
        print!(rt; " {run}")?;
    }
    println!(rt; "")
}

fn print_survey(
    rt: &HostRuntime,
    survey: &Survey,
    steps: &Surveyed,
    shots: usize,
) -> io::Result<()> {
    let name = survey.name.as_str();
    print!(rt; "survey {name}, first filter: ")?;
    print_step(rt, &steps.first, shots)?;
    print!(rt; "survey {name}, second filter: ")?;
    print_step(rt, &steps.both, steps.first.kept)
}

// What each survey keeps, what both and what one or the other, and which of these are asked for.
fn print_steps(rt: &HostRuntime, trip: &Trip, found: &Found) -> io::Result<()> {
    let shots = trip.shots.len();
    print_survey(rt, &trip.first, &found.first, shots)?;
    print_survey(rt, &trip.second, &found.second, shots)?;
    print!(rt; "both surveys: ")?;
    print_step(rt, &found.by_both, shots)?;
    print!(rt; "one survey or the other: ")?;
    print_step(rt, &found.by_either, shots)?;
    let first = trip.window.first;
    let last = trip.window.last;
    print!(rt; "shots {first} to {last}: ")?;
    print_step(rt, &found.asked, found.by_either.kept)
}

// The bytes of these ranges.
fn bytes_in(ranges: &[ByteRange]) -> u64 {
    ranges
        .iter()
        .map(|range| range.end.saturating_sub(range.start))
        .fold(0, u64::saturating_add)
}

// The bytes of all pages of a column.
fn bytes_of(column: &Column) -> u64 {
    column
        .pages
        .iter()
        .filter_map(|page| u64::try_from(page.compressed_page_size).ok())
        .fold(0, u64::saturating_add)
}

fn print_column(rt: &HostRuntime, column: &Column, ranges: &[ByteRange]) -> io::Result<()> {
    let name = column.name.as_str();
    let fetched = ranges.len();
    let all = column.pages.len();
    let bytes = bytes_in(ranges);
    let of = bytes_of(column);
    print!(rt; "{name}: fetch {fetched} of {all} pages, {bytes} of {of} bytes:")?;
    for range in ranges {
        print!(rt; " {range}")?;
    }
    println!(rt; "")
}

// The picture, WIDTH rows to a block.
fn print_picture(rt: &HostRuntime, trip: &Trip, found: &Found) -> io::Result<()> {
    let total = trip.shots.len();
    let heap = rt.alloc();
    for start in (0..total).step_by(WIDTH) {
        let rows = RowRange {
            start,
            end: total.min(start.saturating_add(WIDTH)),
        };
        let kept = rows_line(heap, found.asked.runs.as_slice(), rows)?;
        println!(rt; "{start:>12} {kept}")?;
        for (column, ranges) in trip.columns.iter().zip(found.ranges.iter()) {
            let line = pages_line(heap, column, ranges.as_slice(), rows)?;
            let name = column.name.as_str();
            println!(rt; "{name:>12} {line}")?;
        }
    }
    Ok(())
}

pub(crate) fn print_report(
    rt: &HostRuntime,
    trip: &Trip,
    runs: &Found,
    masks: &Found,
) -> io::Result<()> {
    let name = trip.name.as_str();
    let shots = trip.shots.len();
    println!(rt; "trip {name}: {shots} shots")?;
    print_steps(rt, trip, runs)?;
    let threshold = trip.threshold;
    let strategy = runs.strategy;
    println!(rt; "strategy at threshold {threshold}: {strategy}")?;
    for (column, ranges) in trip.columns.iter().zip(runs.ranges.iter()) {
        print_column(rt, column, ranges.as_slice())?;
    }
    println!(rt; "rows: # asked for, . not; pages by letter, capital where fetched")?;
    print_picture(rt, trip, runs)?;
    if *runs == *masks {
        println!(rt; "runs and mask agree")
    } else {
        println!(rt; "runs and mask DIFFER")
    }
}
