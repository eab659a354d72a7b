// What a page says.
ghost use Rattle.std.specs.Prelude.{◌≡◌};
ghost use Rattle.pages.specs.Pages.{fine, first_row, fits, byte_range};

use crate::page::{ByteRange, PageLocation};
use rows::limit::ROW_LIMIT;

// No number of a page in order is negative, so its size without a sign is the number itself.
impl PageLocation {
    // Whether nothing in it is negative and its first row is within the row limit.
    fn is_fine(self) -> bool
        ensures { result ≡ fine self }
    {
        self.offset >= 0
            && self.compressed_page_size >= 0
            && self.first_row_index >= 0
            && self.first_row_index <= ROW_LIMIT as i64
    }

    // Whether it may stand after the last, if there is one.
    pub(crate) fn fits(self, last: Option<PageLocation>) -> bool
        ensures { result ≡ fits last self }
    {
        self.is_fine()
            && match last {
                None => self.first_row_index == 0,
                Some(q) => q.offset < self.offset && q.first_row_index < self.first_row_index,
            }
    }

    // The number of its first row.
    pub(crate) fn first_row(self) -> usize
        ensures { result ≡ first_row self }
    {
        self.first_row_index.unsigned_abs() as usize
    }

    // Where its bytes lie.
    pub(crate) fn byte_range(self) -> ByteRange
        ensures { result ≡ byte_range self }
    {
        let start = self.offset.unsigned_abs();
        ByteRange {
            start,
            end: start + self.compressed_page_size.unsigned_abs() as u64,
        }
    }
}
