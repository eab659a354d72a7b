// A filter's judgement of a list of shots.
ghost use Rattle.std.specs.Prelude.{◌≡◌, map, IfOk};
ghost use Rattle.rows.specs.Rows.{run_rows};
ghost use Rattle.survey.specs.Filters.{passes};

use crate::filter::Filter;
use crate::shot::Shot;
use rows::selector::RowSelector;
use std::alloc::{AllocError, Global};

// One run for each shot, in order: selected where it passes.
pub fn judge(heap: Global, filter: Filter, shots: &[Shot]) -> Result<Vec<RowSelector>, AllocError>
    ensures { IfOk result (λ v. run_rows v.items ≡ map (passes filter) shots.now) }
{
    shots
        .iter()
        .map(|shot| RowSelector {
            row_count: 1,
            skip: !filter.keeps(*shot),
        })
        .collect(heap)
}
