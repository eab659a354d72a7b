// Runs of equal rows.
ghost use Rattle.std.specs.Prelude.{◌≡◌, true, false, replicate};
ghost use Rattle.rows.specs.Rows.{run_of, selected_in};

use std::fmt;

// A run of rows, all selected or all skipped. Its fields are those of the Rust crate's type, whose name it keeps.
#[derive(Clone, Copy, PartialEq, Eq, Debug)]
pub struct RowSelector {
    pub row_count: usize,
    pub skip: bool,
}

impl RowSelector {
    // A run of selected rows.
    pub fn select(row_count: usize) -> RowSelector
        ensures { run_of result ≡ replicate row_count true }
    {
        RowSelector {
            row_count,
            skip: false,
        }
    }

    // A run of skipped rows.
    pub fn skip(row_count: usize) -> RowSelector
        ensures { run_of result ≡ replicate row_count false }
    {
        RowSelector {
            row_count,
            skip: true,
        }
    }

    // How many rows it selects.
    pub fn selected(self) -> usize
        ensures { result ≡ selected_in self }
    {
        if self.skip { 0 } else { self.row_count }
    }
}

// A plus sign where its rows are selected, a minus sign where they are skipped, and their number.
impl fmt::Display for RowSelector {
    fn fmt<W: fmt::Write>(&self, f: &mut fmt::Formatter<W>) -> fmt::Result {
        let mark = if self.skip { '-' } else { '+' };
        write!(f, "{mark}{}", self.row_count)
    }
}
