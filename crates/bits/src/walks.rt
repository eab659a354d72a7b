// Walks over the selected rows of a mask.
ghost use Rattle.std.specs.Prelude.{◌≤◌};

use crate::mask::Mask;

// The rows of a mask that a walk has not passed: those from row `at` on.
#[derive(Clone, Copy)]
pub struct RowsLeft<'a> {
    pub(crate) mask: Mask<'a>,
    pub(crate) at: usize,
    ghost inside: { at ≤ mask.len },
}

// A walk that gives the selected rows span by span.
#[derive(Clone, Copy)]
pub struct SetSlices<'a> {
    pub(crate) left: RowsLeft<'a>,
}

// A walk that gives the selected rows one by one.
#[derive(Clone, Copy)]
pub struct SetIndices<'a> {
    pub(crate) left: RowsLeft<'a>,
}
