// A run list over runs that are lent.
ghost use Rattle.std.specs.Prelude.{◌≡◌, true, []};
ghost use Rattle.rows.specs.Rows.{run_rows, canonical};
ghost use Rattle.rows.specs.Rules.{trimmed};
ghost use Rattle.runs.specs.Counted.{IsRunList};

use crate::counts::RowCounts;
use rows::selector::RowSelector;

// No run of zero rows, no two neighbours alike, at most the row limit; with the numbers of rows and selected rows.
#[derive(Clone, Copy)]
pub struct RunList<'a> {
    pub(crate) runs: &'a [RowSelector],
    pub(crate) counts: RowCounts,
    ghost list: { IsRunList runs.now counts },
}

impl<'a> RunList<'a> {
    // The list with no runs.
    pub fn empty() -> RunList<'a>
        ensures { result.runs.now ≡ [] }
    {
        RunList {
            runs: &[],
            counts: RowCounts {
                all: 0,
                selected: 0,
            },
        }
    }

    // The list of these runs, whose rows are counted already.
    pub fn of(runs: &'a [RowSelector], counts: RowCounts) -> RunList<'a>
        requires { IsRunList runs.now counts }
        ensures { result.runs.now ≡ runs.now }
    {
        RunList { runs, counts }
    }

    // How many rows it has, and how many of them are selected.
    pub fn counts(&self) -> RowCounts
        ensures { IsRunList self.now.runs.now result }
    {
        self.counts
    }

    // The runs, which stand for the rows of the list.
    pub fn runs(&self) -> &'a [RowSelector]
        ensures { (result.now ≡ self.now.runs.now) × (canonical result.now ≡ true) }
    {
        self.runs
    }

    // The list without the skips at its end: of a run list that is at most its last run.
    pub fn trim(self) -> RunList<'a>
        ensures { run_rows result.runs.now ≡ trimmed (run_rows self.entry.runs.now) }
    {
        let [rest @ .., last] = self.runs else {
            return self;
        };
        if !last.skip {
            return self;
        }
        RunList {
            runs: rest,
            counts: RowCounts {
                all: self.counts.all - last.row_count,
                selected: self.counts.selected,
            },
        }
    }
}
