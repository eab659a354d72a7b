// In which form a selection is better read.
ghost use Rattle.std.specs.Prelude.{◌≡◌, min};
ghost use Rattle.rows.specs.Rows.{count_runs};
ghost use Rattle.rows.specs.Rules.{strategy};

use rows::strategy::RowSelectionStrategy;
use runs::source::{CountedSource, RunSource};

// The whole runs of a source, counted no further than `most`.
fn count_runs<S: RunSource>(source: S, most: usize) -> usize
    ensures { result ≡ min (count_runs (S.rows source)) most }
{
    let mut rest = source;
    for runs in 0..most {
        let Some(_) = rest.next_run() else {
            return runs;
        };
    }
    most
}

// A mask where there are no runs, or fewer rows than runs times the threshold; the product is never formed.
pub fn auto_selection_strategy<S: CountedSource>(
    source: S,
    threshold: usize,
) -> RowSelectionStrategy
    ensures { result ≡ strategy threshold (S.rows source) }
{
    let total = source.rows_left();
    if total == 0 {
        return RowSelectionStrategy::Mask;
    }
    if threshold == 0 {
        return RowSelectionStrategy::Selectors;
    }
    let most = total / threshold;
    if count_runs(source, most + 1) > most {
        return RowSelectionStrategy::Mask;
    }
    RowSelectionStrategy::Selectors
}
