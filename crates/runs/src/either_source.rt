// One of two sources, as one source.
ghost use Rattle.std.specs.Prelude.{◌≡◌};
ghost use Rattle.either.specs.Either.{either};
ghost use Rattle.runs.specs.Shown.{few-either};

use crate::source::{CountedSource, RunSource};
use either::{Either, for_both};
use rows::selector::RowSelector;

impl<A: RunSource, B: RunSource> RunSource for Either<A, B> {
    ghost rows = { either A.rows B.rows };

    fn next_run(&mut self) -> Option<RowSelector> {
        for_both!(self, source => source.next_run())
    }

    ghost within = { few-either A.rows B.rows A.within B.within };
}

impl<A: CountedSource, B: CountedSource> CountedSource for Either<A, B> {
    fn rows_left(&self) -> usize {
        for_both!(self, source => source.rows_left())
    }

    fn selected_left(&self) -> usize {
        for_both!(self, source => source.selected_left())
    }
}
