// Finding the n-th selected row of a mask: by words, and within a word by halves.
ghost use Rattle.std.specs.Prelude.{◌≡◌, ◌<◌, ◌≤◌};
ghost use Rattle.rows.specs.Rows.{selected_count};
ghost use Rattle.rows.specs.Rules.{nth_end};
ghost use Rattle.bits.specs.Bits.{word_rows};
ghost use Rattle.bits.specs.Masks.{rows};

use crate::mask::Mask;
use crate::word::{low_bits, word_ones};

// One past the n-th set bit of a word that has so many.
fn nth_in_word(word: u64, n: usize) -> usize
    requires { (0 < n) × (n ≤ selected_count (word_rows word 64)) }
    ensures { result ≡ nth_end n (word_rows word 64) }
{
    let mut w = word;
    let mut left = n;
    let mut passed = 0usize;
    let mut size = 64usize;
    while size > 1 {
        let half = size / 2;
        let ones = word_ones(low_bits(w, half));
        if ones < left {
            left -= ones;
            passed += half;
            w >>= half;
            size -= half;
        } else {
            size = half;
        }
    }
    passed + 1
}

impl<'a> Mask<'a> {
    // One past the n-th selected row: 0 for n = 0, and the length where fewer are selected.
    pub fn find_nth_set_bit_position(&self, n: usize) -> usize
        ensures { result ≡ nth_end n (rows self.now) }
    {
        if n == 0 {
            return 0;
        }
        let mut left = n;
        for at in (0..self.len).step_by(64) {
            let word = self.word(at);
            let ones = word_ones(word);
            if left <= ones {
                return at + nth_in_word(word, left);
            }
            left -= ones;
        }
        self.len
    }
}
