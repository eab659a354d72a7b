// A selection in one of its two forms.
ghost use Rattle.std.specs.Prelude.{◌≡◌, true, false, not, MatchOption};
ghost use Rattle.either.specs.Either.{is_left};
ghost use Rattle.rows.specs.Rows.{run_rows};
ghost use Rattle.bits.specs.Masks.{rows as rows_of_mask};
ghost use Rattle.selections.specs.Forms.{selection_rows};

use bits::mask::Mask;
use either::Either;
use masks::iter::MaskRunIter;
use runs::run_list::RunList;

// The rows still to come, in runs or in a mask. It is copied: a copy has the same rows, and operations read copies.
#[derive(Clone, Copy)]
pub struct RowSelection<'a> {
    pub(crate) form: Either<RunList<'a>, MaskRunIter<'a>>,
}

impl<'a> RowSelection<'a> {
    // In runs.
    pub fn from_runs(list: RunList<'a>) -> RowSelection<'a>
        ensures rows { selection_rows result ≡ run_rows list.entry.runs.now }
        ensures form { is_left result.form ≡ true }
    {
        RowSelection {
            form: Either::Left(list),
        }
    }

    // In a mask.
    pub fn from_mask(mask: Mask<'a>) -> RowSelection<'a>
        ensures rows { selection_rows result ≡ rows_of_mask mask.entry }
        ensures form { is_left result.form ≡ false }
    {
        RowSelection {
            form: Either::Right(MaskRunIter::new(mask)),
        }
    }

    // Whether it is in a mask.
    pub fn is_mask(&self) -> bool
        ensures { result ≡ not (is_left self.now.form) }
    {
        self.form.is_right()
    }

    // Its rows as a mask, where it is in one.
    pub fn mask(&self) -> Option<Mask<'a>>
        ensures { MatchOption result (is_left self.now.form ≡ true) (λ m. (is_left self.now.form ≡ false) × (rows_of_mask m ≡ selection_rows self.now)) }
    {
        match self.form {
            Either::Left(_) => None,
            Either::Right(walk) => Some(walk.rest()),
        }
    }
}
