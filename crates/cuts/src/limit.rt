// The first selected rows of a selection.
ghost use Rattle.std.specs.Prelude.{◌≡◌, OnOk};
ghost use Rattle.rows.specs.Rules.{limit};
ghost use Rattle.rows.specs.Said.{Limited as Limits};
ghost use Rattle.runs.specs.HeldRows.{held_rows};
ghost use Rattle.runs.specs.Sinks.{Delivers};

use refusals::fault::SelectionFault;
use rows::selector::RowSelector;
use runs::deliver::deliver;
use runs::held::Held;
use runs::pieces::Pieces;
use runs::sink::RowSink;
use runs::source::RunSource;

// What is left of a source, up to so many selected rows.
#[derive(Clone, Copy)]
pub struct Limited<S> {
    rows: Held<S>,
    left: usize,
}

impl<S: RunSource> Limited<S> {
    pub(crate) fn new(source: S, left: usize) -> Limited<S>
        ensures { limit result.left (held_rows S.rows result.rows) ≡ limit left (S.rows source) }
    {
        Limited {
            rows: Held::new(source),
            left,
        }
    }
}

impl<S: RunSource> Pieces for Limited<S> {
    ghost rows = { λ s. limit s.left (held_rows S.rows s.rows) };

    fn piece(&mut self) -> Option<RowSelector> {
        if self.left == 0 {
            return None;
        }
        let run = self.rows.peek()?;
        if run.skip {
            self.rows.take(run.row_count);
            return Some(run);
        }
        let n = run.row_count.min(self.left);
        self.rows.take(n);
        self.left -= n;
        Some(RowSelector {
            row_count: n,
            skip: false,
        })
    }
}

// Up to and with the n-th selected row; all rows where fewer are selected. Refused by 12.
pub fn limit<S: RunSource, K: RowSink>(
    source: S,
    n: usize,
    out: &mut K,
) -> Result<(), SelectionFault>
    ensures delivers { Delivers K.sink out.old (limit n (S.rows source)) result out.new }
    ensures limited { OnOk result (Limits n (S.rows source) (K.sink.rows out.new)) }
{
    deliver(Limited::new(source, n), out)
}
