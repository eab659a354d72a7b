// A selection in either form as a counted source, which is trimmed without memory.
ghost use Rattle.std.specs.Prelude.{◌≡◌};
ghost use Rattle.masks.specs.Left.{left};
ghost use Rattle.masks.specs.Shown.{few-left};
ghost use Rattle.runs.specs.Shown.{few-rows, few-either};
ghost use Rattle.selections.specs.Forms.{selection_rows};

use crate::form::RowSelection;
use cuts::trimming::Trimming;
use either::Either;
use rows::selector::RowSelector;
use runs::source::{CountedSource, RunSource};
use words::cut::trim_mask;

impl<'a> RunSource for RowSelection<'a> {
    ghost rows = { selection_rows };

    fn next_run(&mut self) -> Option<RowSelector> {
        self.form.next_run()
    }

    ghost within = { λ s. few-either _ left (λ l. few-rows l.counts.all l.runs.now l.list.counted l.list.within) few-left s.form };
}

impl<'a> CountedSource for RowSelection<'a> {
    fn rows_left(&self) -> usize {
        self.form.rows_left()
    }

    fn selected_left(&self) -> usize {
        self.form.selected_left()
    }
}

impl<'a> Trimming for RowSelection<'a> {
    fn trimmed(&self) -> RowSelection<'a> {
        match self.form {
            Either::Left(list) => RowSelection::from_runs(list.trim()),
            Either::Right(walk) => RowSelection::from_mask(trim_mask(walk.rest())),
        }
    }
}
