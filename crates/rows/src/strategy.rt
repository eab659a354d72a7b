// The two forms in which a selection can be read.
use std::fmt;

#[derive(Clone, Copy, PartialEq, Eq, Debug)]
pub enum RowSelectionStrategy {
    // Run by run.
    Selectors,
    // By a bitmap.
    Mask,
}

impl fmt::Display for RowSelectionStrategy {
    fn fmt<W: fmt::Write>(&self, f: &mut fmt::Formatter<W>) -> fmt::Result {
        f.write_str(match self {
            RowSelectionStrategy::Selectors => "selectors",
            RowSelectionStrategy::Mask => "mask",
        })
    }
}
