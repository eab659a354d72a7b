// A second filter, judging only the rows that a first one left.
ghost use Rattle.std.specs.Prelude.{OnOk};
ghost use Rattle.rows.specs.Rules.{and_then};
ghost use Rattle.rows.specs.Said.{ByRank};
ghost use Rattle.runs.specs.Sinks.{Writes};
ghost use Rattle.algebra.specs.Verdicts.{narrows};

use crate::narrowed::Narrowed;
use refusals::fault::SelectionFault;
use runs::deliver::deliver;
use runs::sink::RowSink;
use runs::source::CountedSource;

// Row i is selected iff the first selects it and the second selects its rank among the rows that the first selects.
// Refused by 4 where the second has fewer rows than the first selects, by 5 where it has more, then by 12.
pub fn and_then<A: CountedSource, B: CountedSource, K: RowSink>(
    first: A,
    second: B,
    out: &mut K,
) -> Result<(), SelectionFault>
    ensures writes { Writes K.sink out.old (narrows K.sink out.old (A.rows first) (B.rows second)) (and_then (A.rows first) (B.rows second)) result out.new }
    ensures by_rank { OnOk result (ByRank (A.rows first) (B.rows second) (K.sink.rows out.new)) }
{
    let wanted = first.selected_left();
    let given = second.rows_left();
    if given < wanted {
        return Err(SelectionFault::SecondShort(given));
    }
    if wanted < given {
        return Err(SelectionFault::SecondLong(wanted));
    }
    deliver(Narrowed::new(first, second), out)
}
