// Consecutive ranges of a total, piece by piece.
ghost use Rattle.rows.specs.Ranges.{range_rows};

use rows::range::RowRange;
use rows::selector::RowSelector;
use runs::pieces::Pieces;

// The rows from row `at` on, and the ranges that are not passed yet.
#[derive(Clone, Copy)]
pub struct Consecutive<'a> {
    pub(crate) ranges: &'a [RowRange],
    pub(crate) at: usize,
    pub(crate) total: usize,
}

impl<'a> Pieces for Consecutive<'a> {
    ghost rows = { λ s. range_rows s.total s.at s.ranges.now };

    fn piece(&mut self) -> Option<RowSelector> {
        while let [first, rest @ ..] = self.ranges {
            let range = *first;
            if range.start == range.end {
                self.ranges = rest;
                continue;
            }
            let before = range.start.saturating_sub(self.at);
            if before > 0 {
                self.at = range.start;
                return Some(RowSelector {
                    row_count: before,
                    skip: true,
                });
            }
            self.ranges = rest;
            self.at = range.end;
            let held = range.end.saturating_sub(range.start);
            if held > 0 {
                return Some(RowSelector {
                    row_count: held,
                    skip: false,
                });
            }
        }
        let after = self.total.saturating_sub(self.at);
        if after == 0 {
            return None;
        }
        self.at = self.total;
        Some(RowSelector {
            row_count: after,
            skip: true,
        })
    }
}
