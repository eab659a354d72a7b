// A selection without its first selected rows.
ghost use Rattle.std.specs.Prelude.{◌≡◌, OnOk};
ghost use Rattle.rows.specs.Rules.{skip_selected, offset};
ghost use Rattle.rows.specs.Said.{Offset};
ghost use Rattle.runs.specs.HeldRows.{held_rows};
ghost use Rattle.runs.specs.Sinks.{Delivers};

use crate::part::Part;
use refusals::fault::SelectionFault;
use rows::selector::RowSelector;
use runs::convert::convert;
use runs::deliver::deliver;
use runs::held::Held;
use runs::pieces::Pieces;
use runs::sink::RowSink;
use runs::source::{CountedSource, RunSource};

// What is left of a source, with so many selected rows skipped instead. Where `Limited` ends after as many, this goes on.
#[derive(Clone, Copy)]
pub struct Unselected<S> {
    rows: Held<S>,
    left: usize,
}

impl<S: RunSource> Unselected<S> {
    fn new(source: S, left: usize) -> Unselected<S>
        ensures { skip_selected result.left (held_rows S.rows result.rows) ≡ skip_selected left (S.rows source) }
    {
        Unselected {
            rows: Held::new(source),
            left,
        }
    }
}

impl<S: RunSource> Pieces for Unselected<S> {
    ghost rows = { λ s. skip_selected s.left (held_rows S.rows s.rows) };

    fn piece(&mut self) -> Option<RowSelector> {
        let run = self.rows.peek()?;
        if run.skip || self.left == 0 {
            self.rows.take(run.row_count);
            return Some(run);
        }
        let n = run.row_count.min(self.left);
        self.rows.take(n);
        self.left -= n;
        Some(RowSelector {
            row_count: n,
            skip: true,
        })
    }
}

// The first n selected rows are skipped instead; with no selected row past them nothing is left, and n = 0 changes nothing. Refused by 12.
pub fn offset<S: CountedSource, K: RowSink>(
    source: S,
    n: usize,
    out: &mut K,
) -> Result<(), SelectionFault>
    ensures delivers { Delivers K.sink out.old (offset n (S.rows source)) result out.new }
    ensures offsets { OnOk result (Offset n (S.rows source) (K.sink.rows out.new)) }
{
    if n == 0 {
        return convert(source, out);
    }
    if source.selected_left() <= n {
        return convert(Part::new(source, 0), out);
    }
    deliver(Unselected::new(source, n), out)
}
