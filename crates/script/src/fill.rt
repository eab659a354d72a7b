// Made selections: rows drawn from a seed, for large scripts.
use crate::args::Args;
use crate::make::collected;
use crate::no::No;
use refusals::fault::SelectionFault;
use rows::limit::ROW_LIMIT;
use rows::selector::RowSelector;
use std::alloc::{AllocError, Global};
use stored::bytes::StoredMask;
use stored::held::Stored;

// How the words of a mask are drawn.
#[derive(Clone, Copy, PartialEq, Eq, Debug)]
enum Mode {
    AsDrawn,
    AllAlike,
    // One row in sixteen is selected.
    Sparse,
}

impl TryFrom<usize> for Mode {
    type Error = No;

    fn try_from(mode: usize) -> Result<Mode, No> {
        match mode {
            0 => Ok(Mode::AsDrawn),
            1 => Ok(Mode::AllAlike),
            2 => Ok(Mode::Sparse),
            _ => Err(No::Misuse),
        }
    }
}

// The generator xorshift64*.
#[derive(Drop)]
struct Draws {
    x: u64,
}

impl Draws {
    // From 0 nothing can be drawn.
    fn new(seed: usize) -> Result<Draws, No> {
        if seed == 0 {
            return Err(No::Misuse);
        }
        Ok(Draws { x: seed as u64 })
    }

    fn next(&mut self) -> u64 {
        let mut x = self.x;
        x ^= x >> 12;
        x ^= x << 25;
        x ^= x >> 27;
        self.x = x;
        x.wrapping_mul(2_685_821_657_736_338_717)
    }

    // A word of rows.
    fn word(&mut self, mode: Mode) -> u64 {
        let draw = self.next();
        match mode {
            Mode::AsDrawn => draw,
            Mode::AllAlike => if draw >> 63 == 1 { u64::MAX } else { 0 },
            Mode::Sparse => draw & self.next() & self.next() & self.next(),
        }
    }

    // So many bytes of words, the first byte of each word the lowest.
    fn bytes(&mut self, heap: Global, mode: Mode, len: usize) -> Result<Vec<u8>, AllocError> {
        let mut bytes = vec![in heap; 0u8; len]?;
        for chunk in bytes.chunks_mut(8) {
            let word = self.word(mode).to_le_bytes();
            // Copied whole, which is quicker than byte by byte.
            let n = chunk.len().min(8);
            chunk[..n].copy_from_slice(&word[..n]);
        }
        Ok(bytes)
    }

    // So many runs of 1 to `longest` rows, marks alternating; no further than the run that passes the row limit.
    fn runs(
        &mut self,
        heap: Global,
        count: usize,
        longest: u64,
    ) -> Result<Vec<RowSelector>, AllocError> {
        let mut skip = self.next() >> 63 == 0;
        let mut runs = Vec::new(heap);
        let mut all: usize = 0;
        for _ in 0..count {
            let row_count = ((self.next() >> 16) % longest.max(1) + 1) as usize;
            runs.push(RowSelector { row_count, skip })?;
            skip = !skip;
            all = all.saturating_add(row_count);
            if all > ROW_LIMIT {
                break;
            }
        }
        Ok(runs)
    }
}

pub(crate) fn mask_drawn(heap: Global, args: Args<'_>) -> Result<Stored, No> {
    let mut draws = Draws::new(args.number(1)?)?;
    let mode = Mode::try_from(args.number(4)?)?;
    let len = args.number(2)?;
    let offset = args.number(3)?;
    // A mask too long is refused before its bytes are drawn.
    if len > ROW_LIMIT {
        return Err(SelectionFault::RowLimit(0).into());
    }
    let end = offset.checked_add(len).ok_or(No::NoMemory)?;
    let bytes = draws.bytes(heap, mode, end.div_ceil(8))?;
    Ok(Stored::Mask(StoredMask::new(bytes, offset, len)?))
}

pub(crate) fn runs_drawn(heap: Global, args: Args<'_>) -> Result<Stored, No> {
    let mut draws = Draws::new(args.number(2)?)?;
    let longest = args.number(4)?;
    if longest == 0 {
        return Err(No::Misuse);
    }
    let raw = draws.runs(heap, args.number(3)?, longest as u64)?;
    collected(heap, raw.as_slice(), args.number(1)?)
}
