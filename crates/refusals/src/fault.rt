// One enum of faults for each layer. The layer above holds a fault of the layer below whole, and `?` turns one into the other.
ghost use Rattle.std.specs.Prelude.{◌≡◌};
ghost use Rattle.refusals.specs.declared.fault.ReaderFault.TheVariants.{Selection};
ghost use Rattle.refusals.specs.declared.fault.SelectionFault.TheVariants.{Bits};

// A fault of the layer that reads and writes bits. Each holds the place that is told.
#[derive(Clone, Copy, PartialEq, Eq, Debug)]
pub enum BitsFault {
    // A mask runs past its bytes, or a chunk past its mask.
    PastBytes(usize),
    // A mask place has too few bytes for the result.
    BytesTooFew(usize),
}

// A fault of the layer of selections.
#[derive(Clone, Copy, PartialEq, Eq, Debug)]
pub enum SelectionFault {
    Bits(BitsFault),
    // A length or a given total passes the row limit.
    RowLimit(usize),
    // A range runs backward, before the previous end or past the total.
    BadRange(usize),
    // The second of an `and_then` has fewer rows than the first selects.
    SecondShort(usize),
    // It has more.
    SecondLong(usize),
    // A page list is not accepted.
    BadPage(usize),
    // A total lies below the length, or not above the last page's first row.
    BadTotal(usize),
    // A place of runs, byte ranges or row ranges is too small for the result.
    PlaceTooSmall(usize),
}

// A fault of the layer of readers.
#[derive(Clone, Copy, PartialEq, Eq, Debug)]
pub enum ReaderFault {
    Selection(SelectionFault),
    // The batch size is 0.
    EmptyBatch(usize),
    // The next selected row is not loaded.
    NotLoaded(usize),
    // A column is shorter than the opened selection.
    ColumnShort(usize),
    // More rows were read than were handed out.
    ReadTooMuch(usize),
    // A value place is smaller than the batch size.
    ValuesTooFew(usize),
}

// These are written out, since contracts name the fault that `?` makes, and a derived `From` has no contract.
impl From<BitsFault> for SelectionFault {
    ghost from_gives = { λ b s. s ≡ Bits b };

    fn from(b: BitsFault) -> SelectionFault {
        SelectionFault::Bits(b)
    }
}

impl From<SelectionFault> for ReaderFault {
    ghost from_gives = { λ s r. r ≡ Selection s };

    fn from(s: SelectionFault) -> ReaderFault {
        ReaderFault::Selection(s)
    }
}
