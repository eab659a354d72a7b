// What both surveys of a trip keep, the shots that are asked for of these, and the pages of each column that hold them.
ghost use Rattle.std.specs.Prelude.{◌≡◌, map, IfOk};
ghost use Rattle.stored.specs.Rows.{stored_rows};
ghost use Rattle.trip.specs.Steps.{rows_in};
ghost use Rattle.trip.specs.Narrowed.{fetched, ranges_in, Narrowed};

use crate::steps::{Step, Surveyed, made, survey_rows, told_of};
use algebra::strategy::auto_selection_strategy;
use pages::page::ByteRange;
use pages::scan::scan_ranges;
use rows::strategy::RowSelectionStrategy;
use runs::source::RunSource;
use std::alloc::Global;
use stored::held::Stored;
use stored::operation::Operation;
use stored::room::Room;
use tripfile::fault::TripFault;
use tripfile::trip::{Column, Trip, Window};

// What was found in one form: the rows of each step, the ranges of each column, and the form to read in.
#[derive(PartialEq, Drop)]
pub(crate) struct Found {
    pub first: Surveyed,
    pub second: Surveyed,
    pub by_both: Step,
    pub by_either: Step,
    pub asked: Step,
    // One list for each of the trip's columns, which are not held here too, since what is found is compared whole.
    pub ranges: Vec<Vec<ByteRange>>,
    pub strategy: RowSelectionStrategy,
}

// The byte ranges of a column's pages that hold a selected row.
fn column_ranges<S: RunSource>(
    heap: Global,
    column: &Column,
    source: S,
) -> Result<Vec<ByteRange>, TripFault>
    ensures { IfOk result (λ v. v.items ≡ fetched (S.rows source) column.now) }
{
    let pages = column.pages.as_slice();
    let mut ranges = vec![in heap; ByteRange { start: 0, end: 0 }; pages.len()]?;
    let scanned = scan_ranges(source, pages, ranges.as_mut_slice());
    let n = scanned.map_err(|fault| TripFault::Pages(column.line, fault))?;
    ranges.truncate(n);
    Ok(ranges)
}

// The same of each column.
fn ranges_of<S: RunSource>(
    heap: Global,
    columns: &[Column],
    source: S,
) -> Result<Vec<Vec<ByteRange>>, TripFault>
    ensures { IfOk result (λ v. ranges_in v ≡ map (fetched (S.rows source)) columns.now) }
{
    let mut all = Vec::new(heap);
    for column in columns {
        all.push(column_ranges(heap, column, source)?)?;
    }
    Ok(all)
}

// The selected rows of a window: those before its first are left out, and those after its last.
fn window_rows(heap: Global, window: Window, rows: &Stored, form: Room) -> Result<Stored, TripFault>
    ensures { IfOk result (λ s. stored_rows s ≡ rows_in window (stored_rows rows.now)) }
{
    let before = window.first.saturating_sub(1);
    let most = window.last.saturating_sub(before);
    let from_first = made(heap, Operation::Offset(rows.selection(), before), form)?;
    made(heap, Operation::Limit(from_first.selection(), most), form)
}

// A trip narrowed by both surveys, in this form.
pub(crate) fn narrow(heap: Global, trip: &Trip, form: Room) -> Result<Found, TripFault>
    ensures { IfOk result (λ f. Narrowed trip.now f) }
{
    let shots = trip.shots.as_slice();
    let (first, first_rows) = survey_rows(heap, &trip.first, shots, form)?;
    let (second, second_rows) = survey_rows(heap, &trip.second, shots, form)?;
    let (xs, ys) = (first_rows.selection(), second_rows.selection());
    let by_both = made(heap, Operation::And(xs, ys), form)?;
    let by_either = made(heap, Operation::Or(xs, ys), form)?;
    let asked = window_rows(heap, trip.window, &by_either, form)?;
    let rows = asked.selection();
    Ok(Found {
        first,
        second,
        by_both: told_of(heap, &by_both)?,
        by_either: told_of(heap, &by_either)?,
        asked: told_of(heap, &asked)?,
        ranges: ranges_of(heap, trip.columns.as_slice(), rows)?,
        strategy: auto_selection_strategy(rows, trip.threshold),
    })
}
