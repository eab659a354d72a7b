// The row limit.

// The most rows that a selection may have.
pub const ROW_LIMIT: usize = 1_073_741_824;
