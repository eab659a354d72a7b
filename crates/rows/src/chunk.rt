// A chunk of an opened selection.

// The rows skipped before the chunk, the rows of it, how many of them are selected, and its first row.
#[derive(Clone, Copy, PartialEq, Eq, Debug)]
pub struct MaskChunk {
    pub initial_skip: usize,
    pub chunk_rows: usize,
    pub selected_rows: usize,
    pub mask_start: usize,
}
