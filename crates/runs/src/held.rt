// A source with a run begun: what is left of that run comes before the source's rows.
ghost use Rattle.std.specs.Prelude.{◌≡◌, ◌≤◌, not, ◌++◌, take, drop, replicate};
ghost use Rattle.rows.specs.Rows.{any_row};
ghost use Rattle.runs.specs.HeldRows.{held_rows};
ghost use Rattle.runs.specs.Steps.{Ready};

use crate::source::RunSource;
use rows::selector::RowSelector;

// A run of no rows stands for no run begun; an Option of a run would have two ways to say so.
#[derive(Clone, Copy)]
pub struct Held<S> {
    pub source: S,
    pub run: RowSelector,
}

impl<S: RunSource> Held<S> {
    // The source with no run begun.
    pub fn new(source: S) -> Held<S>
        ensures { held_rows S.rows result ≡ S.rows source }
    {
        Held {
            source,
            run: RowSelector {
                row_count: 0,
                skip: true,
            },
        }
    }

    // What is left of the run begun, or the source's next run, which is then begun; none exactly when no row is left.
    pub fn peek(&mut self) -> Option<RowSelector>
        ensures same { held_rows S.rows self.new ≡ held_rows S.rows self.old }
        ensures begun { Ready result self.new.run (held_rows S.rows self.new) }
    {
        if self.run.row_count == 0 {
            self.run = self.source.next_run()?;
        }
        Some(self.run)
    }

    // Removes the first n rows of the run begun.
    pub fn take(&mut self, n: usize)
        requires { n ≤ self.old.run.row_count }
        ensures { replicate n (not self.old.run.skip) ++ held_rows S.rows self.new ≡ held_rows S.rows self.old }
    {
        self.run.row_count -= n;
    }

    // Removes the first n rows, or all where there are fewer; whether one of them was selected.
    pub fn pass(&mut self, n: usize) -> bool
        ensures any { result ≡ any_row (take n (held_rows S.rows self.old)) }
        ensures rest { held_rows S.rows self.new ≡ drop n (held_rows S.rows self.old) }
    {
        let mut left = n;
        let mut found = false;
        while left > 0 {
            let Some(run) = self.peek() else {
                break;
            };
            let m = left.min(run.row_count);
            self.take(m);
            left -= m;
            found |= !run.skip;
        }
        found
    }
}
