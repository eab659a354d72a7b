// Rows that are read by words, run by run.
ghost use Rattle.std.specs.Prelude.{drop};

use crate::word_rows::WordRows;
use bits::word::same_bits;
use rows::selector::RowSelector;
use runs::pieces::Pieces;

// The rows from row `at` on.
#[derive(Clone, Copy)]
pub struct WordRuns<W> {
    pub(crate) from: W,
    pub(crate) at: usize,
}

impl<W: WordRows> Pieces for WordRuns<W> {
    ghost rows = { λ s. drop s.at (W.rows s.from) };

    fn piece(&mut self) -> Option<RowSelector> {
        let at = self.at;
        let left = self.from.len().saturating_sub(at);
        if left == 0 {
            return None;
        }
        let w = self.from.word(at);
        let set = w % 2 == 1;
        let n = same_bits(w, set).min(left);
        self.at = at + n;
        Some(RowSelector {
            row_count: n,
            skip: !set,
        })
    }
}
