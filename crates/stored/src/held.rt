// A selection that owns its memory, in one form or the other.
ghost use Rattle.std.specs.Prelude.{◌≡◌, IfOk};
ghost use Rattle.selections.specs.Forms.{selection_rows};
ghost use Rattle.stored.specs.Rows.{stored_rows, in_mask};

use crate::bytes::StoredMask;
use crate::stored_runs::StoredRuns;
use selections::form::RowSelection;
use std::alloc::{AllocError, Global};

#[derive(Drop)]
pub enum Stored {
    Runs(StoredRuns),
    Mask(StoredMask),
}

impl Stored {
    // Whether it is in a mask.
    pub fn is_mask(&self) -> bool
        ensures { result ≡ in_mask self.now }
    {
        matches!(self, Stored::Mask(_))
    }

    // Its rows, lent.
    pub fn selection(&self) -> RowSelection<'_>
        ensures { selection_rows result ≡ stored_rows self.now }
    {
        match self {
            Stored::Runs(runs) => RowSelection::from_runs(runs.list()),
            Stored::Mask(mask) => RowSelection::from_mask(mask.mask()),
        }
    }

    // A copy in the same form.
    pub fn copy(&self, heap: Global) -> Result<Stored, AllocError>
        ensures rows { IfOk result (λ s. stored_rows s ≡ stored_rows self.now) }
        ensures form { IfOk result (λ s. in_mask s ≡ in_mask self.now) }
    {
        match self {
            Stored::Runs(runs) => StoredRuns::copy_of(heap, runs.list()).map(Stored::Runs),
            Stored::Mask(mask) => mask.copy(heap).map(Stored::Mask),
        }
    }
}
