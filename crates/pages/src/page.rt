// Pages as a column's offset index lists them, and the ranges that are told of them.
pub use rows::range::RowRange;
use rows::range::Span;

// A page: where its bytes start, how many there are, and the number of its first row.
#[derive(Clone, Copy, PartialEq, Eq, Debug)]
pub struct PageLocation {
    pub offset: i64,
    pub compressed_page_size: i32,
    pub first_row_index: i64,
}

// Bytes of a column, by their numbers.
pub type ByteRange = Span<u64>;
