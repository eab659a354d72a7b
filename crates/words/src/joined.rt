// A mask's rows after another's, without memory of their own.
ghost use Rattle.std.specs.Prelude.{◌+◌, ◌≤◌, ◌++◌, length};
ghost use Rattle.rows.specs.Rows.{row_limit};
ghost use Rattle.bits.specs.Masks.{rows as rows_of_mask};
ghost use Rattle.words.specs.Shown.{few-joined};

use crate::splice::splice;
use crate::word_rows::WordRows;
use bits::mask::Mask;

// The rows of the first, then those of the second; together they are within the row limit.
#[derive(Clone, Copy)]
pub struct Joined<'a, 'b> {
    pub(crate) first: Mask<'a>,
    pub(crate) second: Mask<'b>,
    ghost few: { length (rows_of_mask first) + length (rows_of_mask second) ≤ row_limit },
}

impl<'a, 'b> WordRows for Joined<'a, 'b> {
    ghost rows = { λ s. rows_of_mask s.first ++ rows_of_mask s.second };

    fn len(&self) -> usize {
        self.first.len() + self.second.len()
    }

    fn word(&self, at: usize) -> u64 {
        let n = self.first.len();
        if at >= n {
            return self.second.word(at - n);
        }
        let own = n - at;
        let w = self.first.word(at);
        if own >= 64 {
            return w;
        }
        splice(w, self.second.word(0) << own, own)
    }

    ghost within = { λ s. few-joined (rows_of_mask s.first) (rows_of_mask s.second) s.few };
}
