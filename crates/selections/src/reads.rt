// What is asked of a selection: counts, equality, the form to read it in, and the pages it needs.
ghost use Rattle.std.specs.Prelude.{◌≡◌, length, take, IfOk, nat_lt};
ghost use Rattle.refusals.specs.Refusals.{verdict};
ghost use Rattle.rows.specs.Items.{Decides};
ghost use Rattle.rows.specs.Rows.{selected_count};
ghost use Rattle.rows.specs.Rules.{strategy};
ghost use Rattle.pages.specs.Fetch.{FewestPages, bytes_at, rows_at};
ghost use Rattle.pages.specs.Items.{Stands};
ghost use Rattle.pages.specs.Pages.{scanned, page_rows};
ghost use Rattle.pages.specs.Verdicts.{scan_verdict, rows_verdict};
ghost use Rattle.selections.specs.Forms.{selection_rows};

use crate::form::RowSelection;
use algebra::equal::{same_rows, selects_any};
use algebra::strategy::auto_selection_strategy;
use pages::page::{ByteRange, PageLocation};
use pages::scan::{row_ranges_for_selected_pages, scan_ranges};
use refusals::fault::SelectionFault;
use rows::range::RowRange;
use rows::strategy::RowSelectionStrategy;
use runs::source::CountedSource;
use words::same::same_mask_rows;

impl<'a> RowSelection<'a> {
    // How many rows are selected.
    pub fn row_count(&self) -> usize
        ensures { result ≡ selected_count (selection_rows self.now) }
    {
        self.selected_left()
    }

    // How many rows there are.
    pub fn total_row_count(&self) -> usize
        ensures { result ≡ length (selection_rows self.now) }
    {
        self.rows_left()
    }

    // Whether a row is selected.
    pub fn selects_any(&self) -> bool
        ensures { result ≡ nat_lt 0 (selected_count (selection_rows self.now)) }
    {
        selects_any(*self)
    }

    // Whether both have the same rows, whatever their forms.
    pub fn equals(&self, other: &RowSelection) -> bool
        ensures { Decides result (selection_rows self.now ≡ selection_rows other.now) }
    {
        match (self.mask(), other.mask()) {
            (Some(first), Some(second)) => same_mask_rows(first, second),
            _ => same_rows(*self, *other),
        }
    }

    // The form in which it is better read, at a threshold.
    pub fn auto_selection_strategy(&self, threshold: usize) -> RowSelectionStrategy
        ensures { result ≡ strategy threshold (selection_rows self.now) }
    {
        auto_selection_strategy(*self, threshold)
    }

    // The byte ranges of the pages that hold a selected row, at the start of the place; their number. Refused by 6 and 12.
    pub fn scan_ranges(
        &self,
        pages: &[PageLocation],
        place: &mut [ByteRange],
    ) -> Result<usize, SelectionFault>
        ensures verdict { verdict result ≡ scan_verdict (length place.old) pages.now (selection_rows self.now) }
        ensures written { Stands (scanned pages.now (selection_rows self.now)) result place.old place.new }
        ensures fewest { IfOk result (λ n. FewestPages pages.now (selection_rows self.now) (bytes_at pages.now) (take n place.new)) }
    {
        scan_ranges(*self, pages, place)
    }

    // The row ranges of those pages, where the last page ends at the total; their number. Refused by 1, 6, 7 and 12.
    pub fn row_ranges_for_selected_pages(
        &self,
        pages: &[PageLocation],
        total: usize,
        place: &mut [RowRange],
    ) -> Result<usize, SelectionFault>
        ensures verdict { verdict result ≡ rows_verdict (length place.old) total pages.now (selection_rows self.now) }
        ensures written { Stands (page_rows total pages.now (selection_rows self.now)) result place.old place.new }
        ensures fewest { IfOk result (λ n. FewestPages pages.now (selection_rows self.now) (rows_at total pages.now) (take n place.new)) }
    {
        row_ranges_for_selected_pages(*self, pages, total, place)
    }
}
