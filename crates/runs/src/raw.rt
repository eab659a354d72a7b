// Raw runs made into whole ones: zero runs are dropped, and alike neighbours joined.
ghost use Rattle.std.specs.Prelude.{◌≡◌};
ghost use Rattle.rows.specs.Rows.{run_rows};
ghost use Rattle.runs.specs.RawRuns.{fitting, collected};
ghost use Rattle.runs.specs.Sinks.{Writes};

use crate::deliver::deliver;
use crate::pieces::Pieces;
use crate::sink::RowSink;
use refusals::fault::SelectionFault;
use rows::limit::ROW_LIMIT;
use rows::selector::RowSelector;

// The raw runs still to come.
#[derive(Clone, Copy)]
pub struct RawRuns<'a> {
    runs: &'a [RowSelector],
}

impl<'a> RawRuns<'a> {
    pub fn new(runs: &'a [RowSelector]) -> RawRuns<'a>
        ensures { result.runs.now ≡ runs.now }
    {
        RawRuns { runs }
    }
}

impl<'a> Pieces for RawRuns<'a> {
    ghost rows = { λ s. run_rows s.runs.now };

    fn piece(&mut self) -> Option<RowSelector> {
        while let [first, rest @ ..] = self.runs {
            let run = *first;
            self.runs = rest;
            if run.row_count > 0 {
                return Some(run);
            }
        }
        None
    }
}

// How many runs from the start on stay within the row limit.
fn within_limit(raw: &[RowSelector]) -> usize
    ensures { result ≡ fitting 0 raw.now }
{
    let mut all = 0;
    for (i, run) in raw.iter().enumerate() {
        if ROW_LIMIT - all < run.row_count {
            return i;
        }
        all += run.row_count;
    }
    raw.len()
}

// The rows of raw runs in a sink; refused by 1 at the run that passes the row limit, then by 12.
pub fn collect_runs<K: RowSink>(raw: &[RowSelector], out: &mut K) -> Result<(), SelectionFault>
    ensures { Writes K.sink out.old (collected K.sink out.old raw.now) (run_rows raw.now) result out.new }
{
    let n = within_limit(raw);
    if n < raw.len() {
        return Err(SelectionFault::RowLimit(n));
    }
    deliver(RawRuns { runs: raw }, out)
}
