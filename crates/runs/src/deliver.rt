// Pieces written into a sink: measured first, so that a sink too small is refused before any write.
ghost use Rattle.std.specs.Prelude.{◌≡◌, ◌≤◌, [], length};
ghost use Rattle.refusals.specs.Refusals.{verdict};
ghost use Rattle.rows.specs.Rows.{row_limit, begins, count_runs};
ghost use Rattle.runs.specs.Sinks.{Room, Delivers, placed};

use crate::pieces::Pieces;
use crate::sink::RowSink;
use refusals::fault::SelectionFault;

// 1 where a row with this mark begins a whole run, else 0.
fn fresh(last: Option<bool>, mark: bool) -> usize
    ensures { result ≡ begins last mark }
{
    usize::from(last != Some(mark))
}

// How many rows and whole runs there are.
fn measure<P: Pieces>(from: P) -> (usize, usize)
    requires { length (P.rows from) ≤ row_limit }
    ensures all { result.0 ≡ length (P.rows from) }
    ensures runs { result.1 ≡ count_runs (P.rows from) }
{
    let mut rest = from;
    let mut all = 0;
    let mut runs = 0;
    let mut last = None;
    while let Some(run) = rest.piece() {
        let mark = !run.skip;
        all += run.row_count;
        runs += fresh(last, mark);
        last = Some(mark);
    }
    (all, runs)
}

// Writes all rows into an empty sink that has room for them.
fn pour<P: Pieces, K: RowSink>(from: P, out: &mut K)
    requires empty { K.sink.rows out.old ≡ [] }
    requires room { Room K.sink.cost (K.sink.capacity out.old) (P.rows from) }
    ensures rows { K.sink.rows out.new ≡ P.rows from }
    ensures rest { K.sink.keeps out.old out.new }
{
    let mut rest = from;
    while let Some(run) = rest.piece() {
        let Ok(()) = out.put(run) else { unreachable() };
    }
}

// Whether a sink has room for all rows; refused by 12.
pub fn fits<P: Pieces, K: RowSink>(from: P, out: &K) -> Result<(), SelectionFault>
    requires { length (P.rows from) ≤ row_limit }
    ensures { verdict result ≡ placed K.sink out.now (P.rows from) }
{
    let (all, runs) = measure(from);
    out.admit(all, runs)?;
    Ok(())
}

// Writes all rows at the start of a sink that has room for them.
pub fn write<P: Pieces, K: RowSink>(from: P, out: &mut K)
    requires { Room K.sink.cost (K.sink.capacity out.old) (P.rows from) }
    ensures rows { K.sink.rows out.new ≡ P.rows from }
    ensures rest { K.sink.keeps out.old out.new }
{
    out.clear();
    pour(from, out);
}

// Writes all rows at the start of the sink, or refuses it as too small and leaves it.
pub fn deliver<P: Pieces, K: RowSink>(from: P, out: &mut K) -> Result<(), SelectionFault>
    requires { length (P.rows from) ≤ row_limit }
    ensures { Delivers K.sink out.old (P.rows from) result out.new }
{
    fits(from, &*out)?;
    write(from, out);
    Ok(())
}
