// What a source has after its first rows.
ghost use Rattle.std.specs.Prelude.{◌≡◌, drop};
ghost use Rattle.runs.specs.HeldRows.{held_rows};

use rows::selector::RowSelector;
use runs::held::Held;
use runs::pieces::Pieces;
use runs::source::RunSource;

// A source of which some rows were passed over, with the run that is begun.
#[derive(Clone, Copy)]
pub struct Rest<S> {
    rows: Held<S>,
}

impl<S: RunSource> Rest<S> {
    // The rows after the first n; none where there are no more.
    pub fn new(source: S, n: usize) -> Rest<S>
        ensures { held_rows S.rows result.rows ≡ drop n (S.rows source) }
    {
        let mut rows = Held::new(source);
        rows.pass(n);
        Rest { rows }
    }
}

impl<S: RunSource> Pieces for Rest<S> {
    ghost rows = { λ s. held_rows S.rows s.rows };

    fn piece(&mut self) -> Option<RowSelector> {
        let run = self.rows.peek()?;
        self.rows.take(run.row_count);
        Some(run)
    }
}
