// Two selections side by side, combined under a policy, piece by piece.
ghost use Rattle.std.specs.Prelude.{◌≡◌};
ghost use Rattle.rows.specs.Rules.{combine};
ghost use Rattle.runs.specs.HeldRows.{held_rows};

use policies::policy::Policy;
use rows::selector::RowSelector;
use runs::held::Held;
use runs::pieces::Pieces;
use runs::source::RunSource;

// What each has left, and the policy that says how two marks combine.
#[derive(Clone, Copy)]
pub struct Combined<A, B, P> {
    first: Held<A>,
    second: Held<B>,
    policy: P,
}

impl<A: RunSource, B: RunSource, P: Policy> Combined<A, B, P> {
    pub(crate) fn new(first: A, second: B, policy: P) -> Combined<A, B, P>
        ensures { combine P.rule (held_rows A.rows result.first) (held_rows B.rows result.second) ≡ combine P.rule (A.rows first) (B.rows second) }
    {
        Combined {
            first: Held::new(first),
            second: Held::new(second),
            policy,
        }
    }
}

impl<A: RunSource, B: RunSource, P: Policy> Pieces for Combined<A, B, P> {
    ghost rows = { λ s. combine P.rule (held_rows A.rows s.first) (held_rows B.rows s.second) };

    fn piece(&mut self) -> Option<RowSelector> {
        match (self.first.peek(), self.second.peek()) {
            (None, None) => None,
            (Some(run), None) => {
                self.first.take(run.row_count);
                Some(run)
            }
            (None, Some(other)) => {
                self.second.take(other.row_count);
                Some(other)
            }
            (Some(run), Some(other)) => {
                let n = run.row_count.min(other.row_count);
                self.first.take(n);
                self.second.take(n);
                let mark = P::mark(!run.skip, !other.skip);
                Some(RowSelector {
                    row_count: n,
                    skip: !mark,
                })
            }
        }
    }
}
