// Sources that are trimmed without memory.
ghost use Rattle.std.specs.Prelude.{◌≡◌};
ghost use Rattle.rows.specs.Rules.{trimmed};

use either::{Either, map_both};
use runs::run_list::RunList;
use runs::source::{CountedSource, RunSource};

// A source that drops the skips at its end in its own way, without memory.
pub trait Trimming: CountedSource {
    fn trimmed(&self) -> Self
        ensures { Self.rows result ≡ trimmed (Self.rows self.now) };
}

impl<'a> Trimming for RunList<'a> {
    fn trimmed(&self) -> RunList<'a> {
        self.trim()
    }
}

impl<A: Trimming, B: Trimming> Trimming for Either<A, B> {
    fn trimmed(&self) -> Either<A, B> {
        map_both!(self, source => source.trimmed())
    }
}
