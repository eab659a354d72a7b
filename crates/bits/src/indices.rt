// The selected rows of a mask, one by one.
ghost use Rattle.std.specs.Prelude.{◌≡◌};
ghost use Rattle.std.specs.Iterator.{YieldsFirst, item_count};
ghost use Rattle.bits.specs.Masks.{rows};
ghost use Rattle.bits.specs.Walks.{indices_left, indices};

use crate::mask::Mask;
use crate::walks::{RowsLeft, SetIndices};

impl<'a> Mask<'a> {
    // A walk over its selected rows.
    pub fn set_indices(&self) -> SetIndices<'a>
        ensures first { result.left.at ≡ 0 }
        ensures all { indices_left result ≡ rows self.now }
    {
        SetIndices {
            left: RowsLeft { mask: *self, at: 0 },
        }
    }
}

impl<'a> Iterator for SetIndices<'a> {
    type Item = usize;

    // The selected rows in order, and none exactly when no selected row is left.
    ghost next_gives = { YieldsFirst indices };

    ghost remaining = { item_count indices };

    fn next(&mut self) -> Option<usize> {
        let row = self.left.first()?;
        self.left.at = row + 1;
        Some(row)
    }
}
