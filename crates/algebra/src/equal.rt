// Whether two selections have the same rows, and whether one selects any.
ghost use Rattle.std.specs.Prelude.{◌≡◌, nat_lt};
ghost use Rattle.rows.specs.Items.{Decides};
ghost use Rattle.rows.specs.Rows.{selected_count};

use runs::source::RunSource;

// Whether two sources have the same rows: whole runs are compared, since rows have only one list of them.
pub fn same_rows<A: RunSource, B: RunSource>(first: A, second: B) -> bool
    ensures { Decides result (A.rows first ≡ B.rows second) }
{
    let mut rest = first;
    let mut others = second;
    while let Some(run) = rest.next_run() {
        if others.next_run() != Some(run) {
            return false;
        }
    }
    others.next_run().is_none()
}

// Whether a row is selected: of whole runs, the first or the second has it.
pub fn selects_any<S: RunSource>(source: S) -> bool
    ensures { result ≡ nat_lt 0 (selected_count (S.rows source)) }
{
    let mut rest = source;
    let Some(run) = rest.next_run() else {
        return false;
    };
    if !run.skip {
        return true;
    }
    rest.next_run().is_some()
}
