// Rows counted.

// How many rows there are, and how many of them are selected.
#[derive(Clone, Copy, PartialEq, Eq, Debug)]
pub struct RowCounts {
    pub all: usize,
    pub selected: usize,
}
