// Ranges: of rows, and of whatever else is numbered.
use std::fmt;

// From the start up to the end.
#[derive(Clone, Copy, PartialEq, Eq, Debug)]
pub struct Span<T> {
    pub start: T,
    pub end: T,
}

// Rows by their numbers.
pub type RowRange = Span<usize>;

impl<T: fmt::Display> fmt::Display for Span<T> {
    fn fmt<W: fmt::Write>(&self, f: &mut fmt::Formatter<W>) -> fmt::Result {
        write!(f, "{}..{}", self.start, self.end)
    }
}
