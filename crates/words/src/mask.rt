// A mask, read 64 rows at a time.
ghost use Rattle.bits.specs.Masks.{rows as rows_of_mask};
ghost use Rattle.words.specs.Shown.{few-rows};

use crate::word_rows::WordRows;
use bits::mask::Mask;

impl<'a> WordRows for Mask<'a> {
    ghost rows = { rows_of_mask };

    fn len(&self) -> usize {
        Mask::len(self)
    }

    fn word(&self, at: usize) -> u64 {
        Mask::word(self, at)
    }

    ghost within = { few-rows };
}
