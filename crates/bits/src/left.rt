// The next selected row that a walk has left.
ghost use Rattle.std.specs.Prelude.{◌≡◌, ◌+◌, false};
ghost use Rattle.rows.specs.Chunks.{leading};
ghost use Rattle.bits.specs.Masks.{rows};
ghost use Rattle.bits.specs.Walks.{rows_left, StandsAt};

use crate::walks::RowsLeft;

impl<'a> RowsLeft<'a> {
    // Passes the skipped rows up to the first selected one, if any, or else all rows.
    pub(crate) fn first(&mut self) -> Option<usize>
        ensures same { self.new.mask ≡ self.old.mask }
        ensures passed { self.new.at ≡ self.old.at + leading false (rows_left self.old) }
        ensures stands { StandsAt (rows self.old.mask) self.new.at result }
    {
        self.at = self.mask.stretch_end(self.at, false);
        if self.at == self.mask.len {
            return None;
        }
        Some(self.at)
    }
}
