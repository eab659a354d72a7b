// What to fetch of a column for a selection.
ghost use Rattle.std.specs.Prelude.{◌≡◌, length, take, IfOk};
ghost use Rattle.refusals.specs.Refusals.{verdict};
ghost use Rattle.pages.specs.Items.{Stands};
ghost use Rattle.pages.specs.Pages.{scanned, page_rows};
ghost use Rattle.pages.specs.Verdicts.{scan_verdict, rows_verdict};
ghost use Rattle.pages.specs.Fetch.{FewestPages, bytes_at, rows_at};

use crate::list::PageList;
use crate::page::{ByteRange, PageLocation};
use refusals::fault::SelectionFault;
use rows::limit::ROW_LIMIT;
use rows::range::RowRange;
use runs::source::{CountedSource, RunSource};

// The byte ranges of the pages that hold a selected row, at the start of the place; their number.
pub fn scan_ranges<S: RunSource>(
    source: S,
    pages: &[PageLocation],
    place: &mut [ByteRange],
) -> Result<usize, SelectionFault>
    ensures verdict { verdict result ≡ scan_verdict (length place.old) pages.now (S.rows source) }
    ensures written { Stands (scanned pages.now (S.rows source)) result place.old place.new }
    ensures fewest { IfOk result (λ n. FewestPages pages.now (S.rows source) (bytes_at pages.now) (take n place.new)) }
{
    let list = PageList::new(pages)?;
    list.store(source, |page| page.bytes(), place)
}

// The row ranges of those pages, where the last page ends at the total; their number.
pub fn row_ranges_for_selected_pages<S: CountedSource>(
    source: S,
    pages: &[PageLocation],
    total: usize,
    place: &mut [RowRange],
) -> Result<usize, SelectionFault>
    ensures verdict { verdict result ≡ rows_verdict (length place.old) total pages.now (S.rows source) }
    ensures written { Stands (page_rows total pages.now (S.rows source)) result place.old place.new }
    ensures fewest { IfOk result (λ n. FewestPages pages.now (S.rows source) (rows_at total pages.now) (take n place.new)) }
{
    if total > ROW_LIMIT {
        return Err(SelectionFault::RowLimit(0));
    }
    let list = PageList::new(pages)?;
    if total < source.rows_left() || total <= list.last_first_row() {
        return Err(SelectionFault::BadTotal(total));
    }
    list.store(source, |page| page.rows(total), place)
}
