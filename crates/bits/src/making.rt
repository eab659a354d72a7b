// Making a mask, its parts, and the rows that it has.
ghost use Rattle.std.specs.Prelude.{◌≡◌, ◌≤◌, length, take, drop, IfOk, IsOk, ◌+◌, ◌*◌};
ghost use Rattle.refusals.specs.Refusals.{verdict, bits_verdict};
ghost use Rattle.rows.specs.Rows.{row_limit};
ghost use Rattle.bits.specs.Bits.{mask_rows};
ghost use Rattle.bits.specs.Masks.{rows, answered, within_verdict, mask_verdict, value_at};

use crate::mask::Mask;
use crate::word::bit_at;
use refusals::fault::{BitsFault, SelectionFault};
use rows::limit::ROW_LIMIT;

// Whether `len` rows from bit `offset` on lie in the bytes. The number of bits may pass a usize.
fn within(bytes: &[u8], offset: usize, len: usize) -> Result<(), BitsFault>
    ensures { bits_verdict result ≡ within_verdict bytes.now offset len }
{
    let bits = bytes.len() as u128 * 8;
    let start = offset as u128;
    if bits < start + len as u128 {
        return Err(BitsFault::PastBytes(bits.saturating_sub(start) as usize));
    }
    Ok(())
}

impl<'a> Mask<'a> {
    // Whether `len` rows from bit `offset` on make a mask of these bytes.
    pub fn check(bytes: &[u8], offset: usize, len: usize) -> Result<(), SelectionFault>
        ensures { verdict result ≡ mask_verdict bytes.now offset len }
    {
        if len > ROW_LIMIT {
            return Err(SelectionFault::RowLimit(0));
        }
        within(bytes, offset, len)?;
        Ok(())
    }

    // The mask of these rows.
    pub fn new(bytes: &'a [u8], offset: usize, len: usize) -> Result<Mask<'a>, SelectionFault>
        ensures verdict { verdict (answered result) ≡ mask_verdict bytes.now offset len }
        ensures rows { IfOk result (λ m. rows m ≡ mask_rows bytes.now offset len) }
        ensures fits { len ≤ row_limit → offset + len ≤ 8 * length bytes.now → IsOk result }
    {
        Mask::check(bytes, offset, len)?;
        let near = &bytes[offset / 8..];
        Ok(Mask {
            bytes: near,
            offset: offset % 8,
            len,
        })
    }

    // How many rows it has.
    pub fn len(&self) -> usize
        ensures { result ≡ length (rows self.now) }
    {
        self.len
    }

    // The mark of row i; none past the rows.
    pub fn value(&self, i: usize) -> Option<bool>
        ensures { result ≡ value_at (rows self.now) i }
    {
        if i < self.len {
            return Some(bit_at(self.bytes, self.offset + i));
        }
        None
    }

    // The `len` rows from row `from` on, or as many of them as there are.
    pub fn slice(&self, from: usize, len: usize) -> Mask<'a>
        ensures { rows result ≡ take len (drop from (rows self.now)) }
    {
        let skipped = from.min(self.len);
        let kept = len.min(self.len - skipped);
        let start = self.offset + skipped;
        let near = &self.bytes[start / 8..];
        Mask {
            bytes: near,
            offset: start % 8,
            len: kept,
        }
    }
}
