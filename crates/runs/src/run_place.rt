// A place of runs that the caller lends.
ghost use Rattle.runs.specs.Counted.{IsRunList};
ghost use Rattle.runs.specs.Places.{held};

use crate::counts::RowCounts;
use crate::place::Place;
use rows::selector::RowSelector;

// What it holds is always a run list.
#[derive(Drop)]
pub struct RunPlace<'a> {
    pub(crate) place: Place<'a, RowSelector>,
    pub(crate) counts: RowCounts,
    ghost list: { IsRunList (held place) counts },
}
