// Selections without the skipped rows at their end.
ghost use Rattle.std.specs.Prelude.{◌≡◌, OnOk};
ghost use Rattle.rows.specs.Rules.{trimmed};
ghost use Rattle.rows.specs.Said.{Trimmed};
ghost use Rattle.runs.specs.Sinks.{Delivers};

use crate::limit::Limited;
use refusals::fault::SelectionFault;
use runs::deliver::deliver;
use runs::sink::RowSink;
use runs::source::{CountedSource, RunSource};

// The rows up to and with the last selected one: as many selected rows as there are. Refused by 12.
pub fn trim<S: CountedSource, K: RowSink>(source: S, out: &mut K) -> Result<(), SelectionFault>
    ensures delivers { Delivers K.sink out.old (trimmed (S.rows source)) result out.new }
    ensures last { OnOk result (Trimmed (S.rows source) (K.sink.rows out.new)) }
{
    deliver(Limited::new(source, source.selected_left()), out)
}
