// A selection made from ranges of rows.
ghost use Rattle.std.specs.Prelude.{◌≡◌, OnOk};
ghost use Rattle.rows.specs.Ranges.{is_bad, bad_range, range_rows, InRanges};
ghost use Rattle.runs.specs.Sinks.{Writes};
ghost use Rattle.algebra.specs.Verdicts.{ranged};

use crate::consecutive::Consecutive;
use refusals::fault::SelectionFault;
use rows::limit::ROW_LIMIT;
use rows::range::RowRange;
use runs::deliver::deliver;
use runs::sink::RowSink;

// Whether a range runs backward, before the previous end or past the total.
fn is_bad(range: RowRange, end: usize, total: usize) -> bool
    ensures { result ≡ is_bad total end range }
{
    range.end < range.start || range.start < end || total < range.end
}

// The first range that runs backward, before the previous end or past the total; one with no row is passed over.
fn first_bad(ranges: &[RowRange], total: usize) -> Option<usize>
    ensures { result ≡ bad_range total 0 0 ranges.now }
{
    let mut end = 0;
    for (i, range) in ranges.iter().enumerate() {
        if range.start == range.end {
            continue;
        }
        if is_bad(*range, end, total) {
            return Some(i);
        }
        end = range.end;
    }
    None
}

// The rows of a total that the ranges hold. Refused by 1 where the total passes the row limit, by 3 at the first bad range, then by 12.
pub fn from_consecutive_ranges<K: RowSink>(
    ranges: &[RowRange],
    total: usize,
    out: &mut K,
) -> Result<(), SelectionFault>
    ensures writes { Writes K.sink out.old (ranged K.sink out.old total ranges.now) (range_rows total 0 ranges.now) result out.new }
    ensures in_ranges { OnOk result (InRanges total ranges.now (K.sink.rows out.new)) }
{
    if ROW_LIMIT < total {
        return Err(SelectionFault::RowLimit(0));
    }
    if let Some(i) = first_bad(ranges, total) {
        return Err(SelectionFault::BadRange(i));
    }
    deliver(
        Consecutive {
            ranges,
            at: 0,
            total,
        },
        out,
    )
}
