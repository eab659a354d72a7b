// A run place as a row sink: its cost is the number of whole runs.
ghost use Rattle.std.specs.Prelude.{◌≡◌, ◌+◌, ◌<◌, ◌≤◌, ◌++◌, length, Some};
ghost use Rattle.refusals.specs.Refusals.{selection};
ghost use Rattle.rows.specs.Rows.{row_limit, run_of, run_rows};
ghost use Rattle.runs.specs.Places.{held, last_of, Untouched};
ghost use Rattle.runs.specs.RunPlaces.{Apart, Joins, Offers};
ghost use Rattle.runs.specs.Shown.{untouched-same, place-chain};

use crate::counts::RowCounts;
use crate::place::{Full, Place};
use crate::run_list::RunList;
use crate::run_place::RunPlace;
use crate::sink::RowSink;
use refusals::fault::SelectionFault;
use rows::limit::ROW_LIMIT;
use rows::selector::RowSelector;

const NO_ROWS: RowCounts = RowCounts {
    all: 0,
    selected: 0,
};

impl<'a> RunPlace<'a> {
    // An empty place over the runs.
    pub fn new(runs: &'a mut [RowSelector]) -> RunPlace<'a>
        ensures same { (result.place.slots.ghost_name ≡ runs.entry.ghost_name) × (result.place.slots.now ≡ runs.old) }
        ensures empty { result.place.len ≡ 0 }
    {
        RunPlace {
            place: Place::new(runs),
            counts: NO_ROWS,
        }
    }

    // The run list that it holds.
    pub fn list(&self) -> RunList<'_>
        ensures { result.runs.now ≡ held self.now.place }
    {
        RunList {
            runs: self.place.items(),
            counts: self.counts,
        }
    }

    // The last run, where it has this skip mark.
    fn joins(&self, skip: bool) -> Option<RowSelector>
        ensures { Joins (held self.now.place) skip result }
    {
        self.place.last().filter(|last| last.skip == skip)
    }

    // The last run goes on.
    fn lengthen(&mut self, last: RowSelector, more: usize)
        requires last { last_of (held self.old.place) ≡ Some last }
        requires few { self.old.counts.all + more ≤ row_limit }
        ensures rows { run_rows (held self.new.place) ≡ run_rows (held self.old.place) ++ run_of (record { row_count = more; skip = last.skip }) }
        ensures rest { Untouched self.old.place self.new.place }
    {
        let run = RowSelector {
            row_count: more,
            skip: last.skip,
        };
        self.place.replace_last(RowSelector {
            row_count: last.row_count + more,
            skip: last.skip,
        });
        self.counts.all += more;
        self.counts.selected += run.selected();
    }

    // One run more, where there is a slot for it.
    fn append(&mut self, run: RowSelector) -> Result<(), Full>
        requires apart { Apart (held self.old.place) run.skip }
        requires some { 0 < run.row_count }
        requires few { self.old.counts.all + run.row_count ≤ row_limit }
        ensures takes { Offers self.old.place (run_of run) result self.new.place }
        ensures rest { Untouched self.old.place self.new.place }
    {
        self.place.push(run)?;
        self.counts.all += run.row_count;
        self.counts.selected += run.selected();
        Ok(())
    }
}

impl<'a> RowSink for RunPlace<'a> {
    ghost sink = { record {
      rows = λ s. run_rows (held s.place);
      capacity = λ s. length s.place.slots.now;
      cost = λ _ n. n;
      layer = selection;
      keeps = λ s t. Untouched s.place t.place;
    } };

    fn admit(&self, _all: usize, runs: usize) -> Result<(), SelectionFault> {
        if self.place.capacity() < runs {
            return Err(SelectionFault::PlaceTooSmall(runs));
        }
        Ok(())
    }

    fn clear(&mut self) {
        self.place.clear();
        self.counts = NO_ROWS;
    }

    fn put(&mut self, run: RowSelector) -> Result<(), Full> {
        if run.row_count == 0 {
            return Ok(());
        }
        if ROW_LIMIT - self.counts.all < run.row_count {
            return Err(Full);
        }
        if let Some(last) = self.joins(run.skip) {
            self.lengthen(last, run.row_count);
            return Ok(());
        }
        self.append(run)
    }

    ghost laws = { record {
      dearer = λ _ _ _ _ _ h. h;
      still = λ s. untouched-same s.place;
      chain = λ s t u more grows. place-chain s.place t.place u.place t.counts u.counts t.list u.list more grows;
    } };
}
