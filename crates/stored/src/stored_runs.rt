// A run list that owns its runs.
ghost use Rattle.std.specs.Prelude.{◌≡◌, IfOk};
ghost use Rattle.runs.specs.Counted.{IsRunList};

use rows::selector::RowSelector;
use runs::counts::RowCounts;
use runs::run_list::RunList;
use std::alloc::{AllocError, Global};

// No run of zero rows, no two neighbours alike, at most the row limit; with the numbers of rows and selected rows.
#[derive(Drop)]
pub struct StoredRuns {
    runs: Vec<RowSelector>,
    counts: RowCounts,
    ghost list: { IsRunList runs.items counts },
}

impl StoredRuns {
    // A copy of a run list.
    pub fn copy_of(heap: Global, list: RunList) -> Result<StoredRuns, AllocError>
        ensures { IfOk result (λ s. s.runs.items ≡ list.entry.runs.now) }
    {
        let mut runs = Vec::new(heap);
        runs.extend_from_slice(list.runs())?;
        Ok(StoredRuns {
            runs,
            counts: list.counts(),
        })
    }

    // The runs as a list.
    pub fn list(&self) -> RunList<'_>
        ensures { result.runs.now ≡ self.now.runs.items }
    {
        RunList::of(self.runs.as_slice(), self.counts)
    }
}
