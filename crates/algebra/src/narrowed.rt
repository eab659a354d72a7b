// The first's rows narrowed by the second, piece by piece.
ghost use Rattle.std.specs.Prelude.{◌≡◌};
ghost use Rattle.rows.specs.Rules.{and_then};
ghost use Rattle.runs.specs.HeldRows.{held_rows};

use rows::selector::RowSelector;
use runs::held::Held;
use runs::pieces::Pieces;
use runs::source::RunSource;

// What each has left: the second's rows stand beside the rows that the first selects.
#[derive(Clone, Copy)]
pub struct Narrowed<A, B> {
    first: Held<A>,
    second: Held<B>,
}

impl<A: RunSource, B: RunSource> Narrowed<A, B> {
    pub(crate) fn new(first: A, second: B) -> Narrowed<A, B>
        ensures { and_then (held_rows A.rows result.first) (held_rows B.rows result.second) ≡ and_then (A.rows first) (B.rows second) }
    {
        Narrowed {
            first: Held::new(first),
            second: Held::new(second),
        }
    }
}

impl<A: RunSource, B: RunSource> Pieces for Narrowed<A, B> {
    ghost rows = { λ s. and_then (held_rows A.rows s.first) (held_rows B.rows s.second) };

    fn piece(&mut self) -> Option<RowSelector> {
        let run = self.first.peek()?;
        if run.skip {
            self.first.take(run.row_count);
            return Some(run);
        }
        let Some(other) = self.second.peek() else {
            self.first.take(run.row_count);
            return Some(RowSelector {
                row_count: run.row_count,
                skip: true,
            });
        };
        let n = run.row_count.min(other.row_count);
        self.first.take(n);
        self.second.take(n);
        Some(RowSelector {
            row_count: n,
            skip: other.skip,
        })
    }
}
