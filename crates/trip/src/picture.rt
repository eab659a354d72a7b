// A picture in text of the rows that were kept and the pages that are fetched for them.
use pages::page::{ByteRange, PageLocation};
use rows::range::RowRange;
use rows::selector::RowSelector;
use std::alloc::{AllocError, Global};
use std::iter;
use tripfile::trip::Column;

// These rows: '#' where kept, '.' where not.
pub(crate) fn rows_line(
    heap: Global,
    runs: &[RowSelector],
    rows: RowRange,
) -> Result<String, AllocError> {
    let mut line = String::new(heap);
    let mut at: usize = 0;
    // Each run is cut to these rows, which costs less than to step over every row before them.
    for run in runs {
        let end = at.saturating_add(run.row_count);
        for _ in at.max(rows.start)..end.min(rows.end) {
            line.push(if run.skip { '.' } else { '#' })?;
        }
        at = end;
    }
    Ok(line)
}

// The letter of a page, capital where it is fetched.
fn letter(page: usize, fetched: bool) -> char {
    let small = char::from(b'a' + (page % 26) as u8);
    if fetched {
        small.to_ascii_uppercase()
    } else {
        small
    }
}

fn is_fetched(page: &PageLocation, ranges: &[ByteRange]) -> bool {
    ranges
        .iter()
        .any(|range| i64::try_from(range.start) == Ok(page.offset))
}

// The first row of a page, or another number where it is no row's.
fn first_row_or(page: &PageLocation, other: usize) -> usize {
    usize::try_from(page.first_row_index).unwrap_or(other)
}

// These rows, each as its page's letter.
pub(crate) fn pages_line(
    heap: Global,
    column: &Column,
    ranges: &[ByteRange],
    rows: RowRange,
) -> Result<String, AllocError> {
    let mut line = String::new(heap);
    let pages = column.pages.as_slice();
    let ends = pages
        .iter()
        .skip(1)
        .map(|next| first_row_or(next, rows.end))
        .chain(iter::once(rows.end));
    for ((number, page), end) in pages.iter().enumerate().zip(ends) {
        let mark = letter(number, is_fetched(page, ranges));
        for _ in first_row_or(page, rows.end).max(rows.start)..end.min(rows.end) {
            line.push(mark)?;
        }
    }
    Ok(line)
}
