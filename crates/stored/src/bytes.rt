// A mask that owns its bytes.
ghost use Rattle.std.specs.Prelude.{◌≡◌, Ok, IfOk, cond, [], is_ok};
ghost use Rattle.refusals.specs.Refusals.{verdict};
ghost use Rattle.bits.specs.Bits.{mask_rows};
ghost use Rattle.bits.specs.Masks.{rows as rows_of_mask, answered, mask_verdict};

use bits::mask::Mask;
use refusals::fault::SelectionFault;
use std::alloc::{AllocError, Global};

// The rows are the `len` bits from bit `offset` on, which the bytes have.
#[derive(Drop)]
pub struct StoredMask {
    bytes: Vec<u8>,
    offset: usize,
    len: usize,
    ghost sound: { mask_verdict bytes.items offset len ≡ Ok tt },
}

impl StoredMask {
    // The mask of these rows; refused by 1 and 2.
    pub fn new(bytes: Vec<u8>, offset: usize, len: usize) -> Result<StoredMask, SelectionFault>
        ensures verdict { verdict (answered result) ≡ mask_verdict bytes.items offset len }
        ensures rows { IfOk result (λ m. mask_rows m.bytes.items m.offset m.len ≡ mask_rows bytes.items offset len) }
        ensures fields { IfOk result (λ m. (m.bytes.items ≡ bytes.items) × (m.offset ≡ offset) × (m.len ≡ len)) }
    {
        Mask::check(bytes.as_slice(), offset, len)?;
        Ok(StoredMask { bytes, offset, len })
    }

    // The mask of these rows where the bytes have them, and else of none.
    pub fn of(bytes: Vec<u8>, offset: usize, len: usize) -> StoredMask
        ensures bytes { result.bytes.items ≡ bytes.items }
        ensures rows { mask_rows result.bytes.items result.offset result.len ≡ cond (is_ok (mask_verdict bytes.items offset len)) (mask_rows bytes.items offset len) [] }
    {
        if Mask::check(bytes.as_slice(), offset, len).is_err() {
            return StoredMask {
                bytes,
                offset: 0,
                len: 0,
            };
        }
        StoredMask { bytes, offset, len }
    }

    // The mask of these rows.
    pub fn mask(&self) -> Mask<'_>
        ensures { rows_of_mask result ≡ mask_rows self.now.bytes.items self.now.offset self.now.len }
    {
        let Ok(mask) = Mask::new(self.bytes.as_slice(), self.offset, self.len) else {
            unreachable()
        };
        mask
    }

    // The bytes, with those that lie outside of the rows.
    pub fn bytes(&self) -> &[u8]
        ensures { result.now ≡ self.now.bytes.items }
    {
        self.bytes.as_slice()
    }

    // The same bytes, given back.
    pub fn into_bytes(self) -> Vec<u8>
        ensures { result.items ≡ self.bytes.items }
    {
        let StoredMask { bytes, .. } = self;
        bytes
    }

    // The bit of the bytes that is the first row.
    pub fn offset(&self) -> usize
        ensures { result ≡ self.now.offset }
    {
        self.offset
    }

    // A copy with the same bytes, the rows at the same place in them.
    pub fn copy(&self, heap: Global) -> Result<StoredMask, AllocError>
        ensures bytes { IfOk result (λ m. m.bytes.items ≡ self.now.bytes.items) }
        ensures place { IfOk result (λ m. (m.offset ≡ self.now.offset) × (m.len ≡ self.now.len)) }
    {
        Ok(StoredMask {
            bytes: self.bytes.as_slice().to_vec(heap)?,
            offset: self.offset,
            len: self.len,
        })
    }
}
