// The rows of a source, unaltered, in whatever form a sink has.
ghost use Rattle.std.specs.Prelude.{◌≡◌};
ghost use Rattle.runs.specs.Sinks.{Delivers};

use crate::deliver::deliver;
use crate::pieces::Pieces;
use crate::sink::RowSink;
use crate::source::RunSource;
use refusals::fault::SelectionFault;
use rows::selector::RowSelector;

// A source's runs, as pieces.
#[derive(Clone, Copy)]
pub struct Unaltered<S> {
    source: S,
}

impl<S: RunSource> Unaltered<S> {
    pub fn new(source: S) -> Unaltered<S>
        ensures { S.rows result.source ≡ S.rows source }
    {
        Unaltered { source }
    }
}

impl<S: RunSource> Pieces for Unaltered<S> {
    ghost rows = { λ s. S.rows s.source };

    fn piece(&mut self) -> Option<RowSelector> {
        self.source.next_run()
    }
}

// Runs become a mask, or a mask runs, with no row altered; refused by 12.
pub fn convert<S: RunSource, K: RowSink>(source: S, out: &mut K) -> Result<(), SelectionFault>
    ensures { Delivers K.sink out.old (S.rows source) result out.new }
{
    deliver(Unaltered::new(source), out)
}
