// A mask place as a row sink: its cost is the number of bytes.
ghost use Rattle.std.specs.Prelude.{◌≡◌, length};
ghost use Rattle.refusals.specs.Refusals.{bits, bits_verdict};
ghost use Rattle.runs.specs.Sinks.{admitted};
ghost use Rattle.bits.specs.Masks.{rows as rows_of_mask};
ghost use Rattle.masks.specs.Spares.{bytes_of};
ghost use Rattle.masks.specs.Written.{written, Untouched};
ghost use Rattle.masks.specs.Shown.{more_bytes, untouched-same, untouched-chain};

use crate::place::MaskPlace;
use bits::mask::Mask;
use refusals::fault::{BitsFault, SelectionFault};
use rows::limit::ROW_LIMIT;
use rows::selector::RowSelector;
use runs::place::Full;
use runs::sink::RowSink;

impl<'a> MaskPlace<'a> {
    // An empty place over the bytes.
    pub fn new(bytes: &'a mut [u8]) -> MaskPlace<'a>
        ensures same { (result.bytes.ghost_name ≡ bytes.entry.ghost_name) × (result.bytes.now ≡ bytes.old) }
        ensures empty { result.len ≡ 0 }
    {
        MaskPlace { bytes, len: 0 }
    }

    // The mask that it holds.
    pub fn mask(&self) -> Mask<'_>
        ensures { rows_of_mask result ≡ written self.now }
    {
        Mask::new(&*self.bytes, 0, self.len).unwrap()
    }

    // Refused by 12 where so many bytes are more than there are.
    fn room(&self, needed: usize) -> Result<(), BitsFault>
        ensures { bits_verdict result ≡ admitted bits (length self.now.bytes.now) needed }
    {
        if self.bytes.len() < needed {
            return Err(BitsFault::BytesTooFew(needed));
        }
        Ok(())
    }
}

impl<'a> RowSink for MaskPlace<'a> {
    ghost sink = { record {
      rows = written;
      capacity = λ s. length s.bytes.now;
      cost = λ m _. bytes_of m;
      layer = bits;
      keeps = Untouched;
    } };

    fn admit(&self, all: usize, _runs: usize) -> Result<(), SelectionFault> {
        self.room(all.div_ceil(8))?;
        Ok(())
    }

    fn clear(&mut self) {
        self.len = 0;
    }

    fn put(&mut self, run: RowSelector) -> Result<(), Full> {
        let n = run.row_count;
        if n == 0 {
            return Ok(());
        }
        if ROW_LIMIT - self.len < n {
            return Err(Full);
        }
        let end = self.len + n;
        if self.bytes.len() < end.div_ceil(8) {
            return Err(Full);
        }
        // Each turn appends as many rows as fit its byte or its word.
        while self.len < end {
            self.extend(end - self.len, !run.skip);
        }
        Ok(())
    }

    ghost laws = { record {
      dearer = more_bytes;
      still = untouched-same;
      chain = untouched-chain;
    } };
}
