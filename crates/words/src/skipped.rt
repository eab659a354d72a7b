// A mask whose first rows are skipped, without memory of its own.
ghost use Rattle.bits.specs.Masks.{rows as rows_of_mask};
ghost use Rattle.words.specs.Fronts.{skip_front};
ghost use Rattle.words.specs.Shown.{few-skipped};

use crate::splice::splice;
use crate::word_rows::WordRows;
use bits::mask::Mask;

// The mask's rows, of which those before row `cut` are skipped instead.
#[derive(Clone, Copy)]
pub struct SkippedTo<'a> {
    pub(crate) mask: Mask<'a>,
    pub(crate) cut: usize,
}

impl<'a> WordRows for SkippedTo<'a> {
    ghost rows = { λ s. skip_front s.cut (rows_of_mask s.mask) };

    fn len(&self) -> usize {
        self.mask.len()
    }

    fn word(&self, at: usize) -> u64 {
        let skipped = self.cut.saturating_sub(at);
        if skipped >= 64 {
            return 0;
        }
        splice(0, self.mask.word(at), skipped)
    }

    ghost within = { λ s. few-skipped s.cut s.mask };
}
