// A page as it is taken off its list.
ghost use Rattle.std.specs.Prelude.{◌≡◌};
ghost use Rattle.pages.specs.Pages.{span_bytes, span_rows};

use crate::page::{ByteRange, PageLocation};
use rows::range::RowRange;

// A page and the one after it, which tells where its rows end.
#[derive(Clone, Copy)]
pub(crate) struct PageSpan {
    pub page: PageLocation,
    pub next: Option<PageLocation>,
}

impl PageSpan {
    // Where its bytes lie.
    pub(crate) fn bytes(self) -> ByteRange
        ensures { result ≡ span_bytes self }
    {
        self.page.byte_range()
    }

    // Its rows, where the last page's end at the total.
    pub(crate) fn rows(self, total: usize) -> RowRange
        ensures { result ≡ span_rows total self }
    {
        RowRange {
            start: self.page.first_row(),
            end: self.next.map_or(total, |q| q.first_row()),
        }
    }
}
