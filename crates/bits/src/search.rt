// Searching a mask, by words of 64 rows, for where the marks change and for the last selected row.
ghost use Rattle.std.specs.Prelude.{◌≡◌, ◌+◌, ◌≤◌, drop};
ghost use Rattle.rows.specs.Chunks.{leading};
ghost use Rattle.bits.specs.Masks.{rows, next_change, last_selected};

use crate::mask::Mask;
use crate::word::{same_bits, word_at};

impl<'a> Mask<'a> {
    // Where the rows of the mark `set` from row `from` on end: at the first row of the other mark, or at the length.
    pub(crate) fn stretch_end(&self, from: usize, set: bool) -> usize
        requires { from ≤ self.now.len }
        ensures within { result ≤ self.now.len }
        ensures stretch { result ≡ from + leading set (drop from (rows self.now)) }
    {
        for i in 0..(self.len - from).div_ceil(64) {
            let at = from + 64 * i;
            let n = same_bits(word_at(self.bytes, self.offset + at), set);
            if n < 64 {
                return (at + n).min(self.len);
            }
        }
        self.len
    }

    // The first row after row `at` whose mark differs from that of row `at`, or the length.
    pub fn next_change(&self, at: usize) -> usize
        ensures { result ≡ next_change (rows self.now) at }
    {
        match self.value(at) {
            Some(set) => self.stretch_end(at, set),
            None => self.len,
        }
    }

    // The last selected row, if any; the words are read from the last.
    pub fn last_set_bit(&self) -> Option<usize>
        ensures { result ≡ last_selected (rows self.now) }
    {
        for i in (0..self.len.div_ceil(64)).rev() {
            if let Some(bit) = self.word(64 * i).checked_ilog2() {
                return Some(64 * i + bit as usize);
            }
        }
        None
    }
}
