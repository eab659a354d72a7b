// The states of a selection before it is read, a type for each. Values of these types are moved, so that a state is left when the next is made.
ghost use Rattle.std.specs.Prelude.{◌≡◌};
ghost use Rattle.rows.specs.Rules.{trimmed};
ghost use Rattle.selections.specs.States.{rows_of, trimmed_rows};

use cuts::trimming::Trimming;
use runs::source::{CountedSource, RunSource};

// The rows of a source.
#[derive(Drop)]
pub struct Selection<S> {
    source: S,
}

// The rows of a source that has no skipped rows at its end. Only `trim` makes one.
#[derive(Drop)]
pub struct TrimmedSelection<S> {
    source: S,
}

impl<S: Trimming> Selection<S> {
    pub fn new(source: S) -> Selection<S>
        ensures { rows_of S.rows result ≡ S.rows source }
    {
        Selection { source }
    }

    // A copy of its rows, for operations and requests.
    pub fn source(&self) -> S
        ensures { S.rows result ≡ rows_of S.rows self.now }
    {
        self.source
    }

    // Without the skipped rows at its end.
    pub fn trim(self) -> TrimmedSelection<S>
        ensures { trimmed_rows S.rows result ≡ trimmed (rows_of S.rows self) }
    {
        let Selection { source } = self;
        TrimmedSelection {
            source: source.trimmed(),
        }
    }
}

impl<S: Trimming> TrimmedSelection<S> {
    // A copy of its rows, for operations and requests.
    pub fn source(&self) -> S
        ensures { S.rows result ≡ trimmed_rows S.rows self.now }
    {
        self.source
    }

    // A selection like any other again.
    pub fn loosen(self) -> Selection<S>
        ensures { rows_of S.rows result ≡ trimmed_rows S.rows self }
    {
        let TrimmedSelection { source } = self;
        Selection { source }
    }
}
