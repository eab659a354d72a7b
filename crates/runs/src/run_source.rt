// A run list as a counted source.
ghost use Rattle.std.specs.Prelude.{◌≡◌};
ghost use Rattle.rows.specs.Rows.{run_rows};
ghost use Rattle.runs.specs.Shown.{few-rows};

use crate::run_list::RunList;
use crate::source::{CountedSource, RunSource};
use rows::selector::RowSelector;

impl<'a> RunSource for RunList<'a> {
    ghost rows = { λ s. run_rows s.runs.now };

    fn next_run(&mut self) -> Option<RowSelector> {
        let [first, rest @ ..] = self.runs else {
            return None;
        };
        let run = *first;
        self.counts.all -= run.row_count;
        self.counts.selected -= run.selected();
        self.runs = rest;
        Some(run)
    }

    ghost within = { λ s. few-rows s.counts.all s.runs.now s.list.counted s.list.within };
}

impl<'a> CountedSource for RunList<'a> {
    fn rows_left(&self) -> usize {
        self.counts.all
    }

    fn selected_left(&self) -> usize {
        self.counts.selected
    }
}
