// Counting the selected rows of a mask.
ghost use Rattle.std.specs.Prelude.{◌≡◌, ◌-◌, ◌≤◌};
ghost use Rattle.rows.specs.Rows.{selected_count};
ghost use Rattle.bits.specs.Bits.{bit_at, rows_of};
ghost use Rattle.bits.specs.Masks.{rows};

use crate::mask::Mask;

// How many bits of a byte are set, of those from bit `from` on and below bit `to`.
fn ones_between(b: u8, from: usize, to: usize) -> usize
    requires { (from ≤ to) × (to ≤ 8) }
    ensures { result ≡ selected_count (rows_of (bit_at b) from (to - from)) }
{
    ((b as u64 % (1 << to)) >> from).count_ones() as usize
}

impl<'a> Mask<'a> {
    // How many rows are selected. The loop over bytes is the plainest one: callers know the number alone, so a faster one can take its place.
    pub fn count_set_bits(&self) -> usize
        ensures { result ≡ selected_count (rows self.now) }
    {
        let end = self.offset + self.len;
        let mut n = 0usize;
        for i in 0..end.div_ceil(8) {
            let from = self.offset.saturating_sub(8 * i);
            let to = (end - 8 * i).min(8);
            n += ones_between(self.bytes[i], from, to);
        }
        n
    }
}
