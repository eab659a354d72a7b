// The shots that a selection left, for the next filter to judge.
ghost use Rattle.std.specs.Prelude.{◌≡◌, IfOk};
ghost use Rattle.survey.specs.Filters.{picked};

use crate::shot::Shot;
use runs::source::RunSource;
use std::alloc::{AllocError, Global};

// The shots at the selected rows, in order, whole runs at a time.
pub fn kept<S: RunSource>(heap: Global, source: S, shots: &[Shot]) -> Result<Vec<Shot>, AllocError>
    ensures { IfOk result (λ v. v.items ≡ picked (S.RunSource.rows source) shots.now) }
{
    let mut rest = source;
    let mut ahead = shots;
    let mut found = Vec::new(heap);
    while let Some(run) = rest.next_run() {
        let (these, after) = ahead.split_at(run.row_count.min(ahead.len()));
        if !run.skip {
            found.extend_from_slice(these)?;
        }
        ahead = after;
    }
    Ok(found)
}
