// Run sources: the rows still to come, handed out run by run.
ghost use Rattle.std.specs.Prelude.{◌≡◌, ◌≤◌, Bool, List, length};
ghost use Rattle.rows.specs.Rows.{row_limit, selected_count};
ghost use Rattle.runs.specs.Steps.{Next};

use rows::selector::RowSelector;

// A source is copied: a copy has the same rows, and reading one leaves the other.
pub trait RunSource: Copy {
    // the rows still to come
    ghost rows: { Self → List Bool };

    // The whole leading run of equal rows, which is removed; none exactly when no row is left.
    fn next_run(&mut self) -> Option<RowSelector>
        ensures { Next (rows self.old) result (rows self.new) };

    // no more rows than the limit
    ghost within: { (s : Self) → length (rows s) ≤ row_limit };
}

// A source that also tells how many rows, and how many selected rows, are left.
pub trait CountedSource: RunSource {
    fn rows_left(&self) -> usize
        ensures { result ≡ length (Self.rows self.now) };

    fn selected_left(&self) -> usize
        ensures { result ≡ selected_count (Self.rows self.now) };
}
