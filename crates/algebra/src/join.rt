// Two selections joined end to end.
ghost use Rattle.std.specs.Prelude.{◌++◌};
ghost use Rattle.runs.specs.Sinks.{JoinsInto};

use refusals::fault::SelectionFault;
use rows::limit::ROW_LIMIT;
use rows::selector::RowSelector;
use runs::deliver::deliver;
use runs::pieces::Pieces;
use runs::sink::RowSink;
use runs::source::{CountedSource, RunSource};

// The first's rows, and after them the second's.
#[derive(Clone, Copy)]
pub struct Joined<A, B> {
    first: A,
    second: B,
}

impl<A: RunSource, B: RunSource> Pieces for Joined<A, B> {
    ghost rows = { λ s. A.rows s.first ++ B.rows s.second };

    fn piece(&mut self) -> Option<RowSelector> {
        match self.first.next_run() {
            Some(run) => Some(run),
            None => self.second.next_run(),
        }
    }
}

// The second's rows after the first's. Refused by 1 at the second part where the two pass the row limit, then by 12.
pub fn join<A: CountedSource, B: CountedSource, K: RowSink>(
    first: A,
    second: B,
    out: &mut K,
) -> Result<(), SelectionFault>
    ensures { JoinsInto K.sink out.old (A.rows first) (B.rows second) result out.new }
{
    if ROW_LIMIT < first.rows_left() + second.rows_left() {
        return Err(SelectionFault::RowLimit(1));
    }
    deliver(Joined { first, second }, out)
}
