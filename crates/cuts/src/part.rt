// The first rows of a source.
ghost use Rattle.std.specs.Prelude.{◌≡◌, length, take};
ghost use Rattle.rows.specs.Rows.{selected_count};
ghost use Rattle.rows.specs.Rules.{trimmed};
ghost use Rattle.cuts.specs.PartRows.{part_rows};
ghost use Rattle.cuts.specs.Shown.{few-part};

use crate::trimming::Trimming;
use rows::selector::RowSelector;
use runs::source::{CountedSource, RunSource};

// The rows still to come of a source, at most `left` of them.
#[derive(Clone, Copy)]
pub struct Part<S> {
    source: S,
    left: usize,
}

impl<S: RunSource> Part<S> {
    // The first n rows, or all where there are fewer.
    pub fn new(source: S, n: usize) -> Part<S>
        ensures { part_rows S.rows result ≡ take n (S.rows source) }
    {
        Part { source, left: n }
    }
}

impl<S: RunSource> RunSource for Part<S> {
    ghost rows = { λ s. part_rows S.rows s };

    fn next_run(&mut self) -> Option<RowSelector> {
        if self.left == 0 {
            return None;
        }
        let run = self.source.next_run()?;
        let n = run.row_count.min(self.left);
        self.left -= n;
        Some(RowSelector {
            row_count: n,
            skip: run.skip,
        })
    }

    ghost within = { λ s. few-part s.left _ (S.within s.source) };
}

// How many rows of a source are selected, run by run.
fn count_selected<S: RunSource>(source: S) -> usize
    ensures { result ≡ selected_count (S.rows source) }
{
    let mut rest = source;
    let mut n = 0;
    while let Some(run) = rest.next_run() {
        n += run.selected();
    }
    n
}

// How many rows a source has up to and with the last selected one.
fn up_to_last<S: RunSource>(source: S) -> usize
    ensures { result ≡ length (trimmed (S.rows source)) }
{
    let mut rest = source;
    let mut at = 0;
    let mut last = 0;
    while let Some(run) = rest.next_run() {
        at += run.row_count;
        if !run.skip {
            last = at;
        }
    }
    last
}

impl<S: CountedSource> CountedSource for Part<S> {
    fn rows_left(&self) -> usize {
        self.source.rows_left().min(self.left)
    }

    fn selected_left(&self) -> usize {
        if self.source.rows_left() <= self.left {
            return self.source.selected_left();
        }
        count_selected(*self)
    }
}

impl<S: CountedSource> Trimming for Part<S> {
    fn trimmed(&self) -> Part<S> {
        Part {
            source: self.source,
            left: up_to_last(*self),
        }
    }
}
