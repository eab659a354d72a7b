// A mask as a counted source.
ghost use Rattle.std.specs.Prelude.{◌≡◌};
ghost use Rattle.bits.specs.Masks.{rows as rows_of_mask};
ghost use Rattle.masks.specs.Left.{left};
ghost use Rattle.masks.specs.Shown.{few-left};

use crate::iter::MaskRunIter;
use bits::mask::Mask;
use rows::selector::RowSelector;
use runs::source::{CountedSource, RunSource};

impl<'a> MaskRunIter<'a> {
    // All rows of the mask.
    pub fn new(mask: Mask<'a>) -> MaskRunIter<'a>
        ensures { left result ≡ rows_of_mask mask.entry }
    {
        MaskRunIter { mask, at: 0 }
    }

    // The rows still to come, as a mask.
    pub fn rest(&self) -> Mask<'a>
        ensures { rows_of_mask result ≡ left self.now }
    {
        self.mask.slice(self.at, self.mask.len())
    }
}

impl<'a> RunSource for MaskRunIter<'a> {
    ghost rows = { left };

    fn next_run(&mut self) -> Option<RowSelector> {
        let at = self.at;
        let set = self.mask.value(at)?;
        let to = self.mask.next_change(at);
        self.at = to;
        Some(RowSelector {
            row_count: to - at,
            skip: !set,
        })
    }

    ghost within = { few-left };
}

impl<'a> CountedSource for MaskRunIter<'a> {
    fn rows_left(&self) -> usize {
        self.rest().len()
    }

    fn selected_left(&self) -> usize {
        self.rest().count_set_bits()
    }
}
