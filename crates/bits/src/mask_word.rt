// The rows of a mask, 64 at a time.
ghost use Rattle.std.specs.Prelude.{◌≡◌, ℕ, ◌+◌, ◌<◌};
ghost use Rattle.rows.specs.Said.{Selects};
ghost use Rattle.bits.specs.Bits.{bit_at};
ghost use Rattle.bits.specs.Masks.{rows};

use crate::mask::Mask;
use crate::word::{low_bits, word_at};

impl<'a> Mask<'a> {
    // The 64 rows from row `at` on, the first of them as bit 0; the bits past the last row are 0. It stays a call: inlined, it makes the steps that ask for a word too long to be inlined themselves.
    #[inline(never)]
    pub fn word(&self, at: usize) -> u64
        ensures { (k : ℕ) → k < 64 → bit_at result k ≡ Selects (rows self.now) (at + k) }
    {
        if at >= self.len {
            return 0;
        }
        let left = self.len - at;
        let start = self.offset + at;
        // Most words are whole, and cutting them would take as long as to read them.
        if left >= 64 {
            return word_at(self.bytes, start);
        }
        low_bits(word_at(self.bytes, start), left)
    }
}
