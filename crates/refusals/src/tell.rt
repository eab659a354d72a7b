// Each fault as the refusal that its caller is told.
ghost use Rattle.std.specs.Prelude.{◌≡◌};
ghost use Rattle.refusals.specs.Refusals.{told, told_selection, told_bits};

use crate::fault::{BitsFault, ReaderFault, SelectionFault};
use crate::refusal::{Layer, Refusal};

impl BitsFault {
    pub fn refusal(self) -> Refusal
        ensures { result ≡ told_bits self }
    {
        let (number, place) = match self {
            BitsFault::PastBytes(n) => (2, n),
            BitsFault::BytesTooFew(n) => (12, n),
        };
        Refusal {
            number,
            place,
            layer: Layer::Bits,
        }
    }
}

impl SelectionFault {
    pub fn refusal(self) -> Refusal
        ensures { result ≡ told_selection self }
    {
        let (number, place) = match self {
            SelectionFault::Bits(b) => return b.refusal(),
            SelectionFault::RowLimit(n) => (1, n),
            SelectionFault::BadRange(n) => (3, n),
            SelectionFault::SecondShort(n) => (4, n),
            SelectionFault::SecondLong(n) => (5, n),
            SelectionFault::BadPage(n) => (6, n),
            SelectionFault::BadTotal(n) => (7, n),
            SelectionFault::PlaceTooSmall(n) => (12, n),
        };
        Refusal {
            number,
            place,
            layer: Layer::Selection,
        }
    }
}

impl ReaderFault {
    pub fn refusal(self) -> Refusal
        ensures { result ≡ told self }
    {
        let (number, place) = match self {
            ReaderFault::Selection(s) => return s.refusal(),
            ReaderFault::EmptyBatch(n) => (8, n),
            ReaderFault::NotLoaded(n) => (9, n),
            ReaderFault::ColumnShort(n) => (10, n),
            ReaderFault::ReadTooMuch(n) => (11, n),
            ReaderFault::ValuesTooFew(n) => (12, n),
        };
        Refusal {
            number,
            place,
            layer: Layer::Reader,
        }
    }
}
