// The first rows of a selection, and the rest of it.
ghost use Rattle.std.specs.Prelude.{◌≡◌, OnOk};
ghost use Rattle.rows.specs.Said.{Split};
ghost use Rattle.runs.specs.Sinks.{SplitsInto};

use crate::part::Part;
use crate::rest::Rest;
use refusals::fault::SelectionFault;
use runs::convert::Unaltered;
use runs::deliver::{fits, write};
use runs::sink::RowSink;
use runs::source::RunSource;

// The first n rows, or all where there are fewer, in one sink, and the rows after them in another.
// Refused by 12 for the first sink, then by 12 for the second, before either is written.
pub fn split_off<S: RunSource, K: RowSink, L: RowSink>(
    source: S,
    n: usize,
    front: &mut K,
    rest: &mut L,
) -> Result<(), SelectionFault>
    ensures splits { SplitsInto K.sink front.old L.sink rest.old n (S.rows source) result front.new rest.new }
    ensures split { OnOk result (Split n (S.rows source) (K.sink.rows front.new) (L.sink.rows rest.new)) }
{
    let first = Unaltered::new(Part::new(source, n));
    let second = Rest::new(source, n);
    fits(first, &*front)?;
    fits(second, &*rest)?;
    write(first, front);
    write(second, rest);
    Ok(())
}
