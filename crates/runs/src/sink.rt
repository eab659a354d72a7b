// Row sinks: what takes rows, run by run.
ghost use Rattle.std.specs.Prelude.{◌≡◌, []};
ghost use Rattle.refusals.specs.Refusals.{verdict};
ghost use Rattle.rows.specs.Rows.{run_of};
ghost use Rattle.runs.specs.Sinks.{Sink, SinkLaws, Room, Offered, admitted};

use crate::place::Full;
use refusals::fault::SelectionFault;
use rows::selector::RowSelector;

pub trait RowSink {
    // what contracts say of it: its rows, its capacity, what rows cost, and what it leaves alone
    ghost sink: { Sink Self };

    // Whether so many rows in so many whole runs have room; refused by 12.
    fn admit(&self, all: usize, runs: usize) -> Result<(), SelectionFault>
        ensures { verdict result ≡ admitted sink.layer (sink.capacity self.now) (sink.cost all runs) };

    // Forgets the rows taken.
    fn clear(&mut self)
        ensures none { sink.rows self.new ≡ [] }
        ensures stays { sink.capacity self.new ≡ sink.capacity self.old }
        ensures rest { sink.keeps self.old self.new };

    // Takes the run, exactly where rows and cost then are within row limit and capacity.
    fn put(&mut self, run: RowSelector) -> Result<(), Full>
        ensures takes { Offered (Room sink.cost (sink.capacity self.old)) (sink.rows self.old) (run_of run) result (sink.rows self.new) }
        ensures stays { sink.capacity self.new ≡ sink.capacity self.old }
        ensures rest { sink.keeps self.old self.new };

    ghost laws: { SinkLaws sink };
}
