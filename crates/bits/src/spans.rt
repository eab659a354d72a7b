// The selected rows of a mask, span by span.
ghost use Rattle.std.specs.Prelude.{◌≡◌, [], length, MatchOption};
ghost use Rattle.std.specs.Iterator.{at_most};
ghost use Rattle.rows.specs.Rows.{selected_count};
ghost use Rattle.bits.specs.Masks.{rows};
ghost use Rattle.bits.specs.Walks.{slices_left, Spanned};

use crate::mask::Mask;
use crate::walks::{RowsLeft, SetSlices};
use rows::range::RowRange;

impl<'a> Mask<'a> {
    // A walk over its spans of selected rows.
    pub fn set_slices(&self) -> SetSlices<'a>
        ensures first { result.left.at ≡ 0 }
        ensures all { slices_left result ≡ rows self.now }
    {
        SetSlices {
            left: RowsLeft { mask: *self, at: 0 },
        }
    }
}

impl<'a> Iterator for SetSlices<'a> {
    type Item = RowRange;

    // The next span of selected rows, as far as they go, and none exactly when no selected row is left.
    ghost next_gives = { λ s r t. MatchOption r ((selected_count (slices_left s) ≡ 0) × (slices_left t ≡ [])) (λ x. Spanned s.left.at (slices_left s) x.start x.end t.left.at (slices_left t)) };

    ghost remaining = { λ s. at_most (length (slices_left s)) };

    fn next(&mut self) -> Option<RowRange> {
        let start = self.left.first()?;
        let end = self.left.mask.stretch_end(start, true);
        self.left.at = end;
        Some(RowRange { start, end })
    }
}
