// Row sinks that take rows by words.
ghost use Rattle.std.specs.Prelude.{◌≡◌};
ghost use Rattle.refusals.specs.Refusals.{verdict};
ghost use Rattle.runs.specs.Sinks.{Delivers, placed};

use crate::word_rows::WordRows;
use crate::word_runs::WordRuns;
use masks::place::MaskPlace;
use refusals::fault::SelectionFault;
use runs::deliver::{deliver, fits};
use runs::run_place::RunPlace;
use runs::sink::RowSink;

pub trait WordSink: RowSink {
    // Whether all rows have room; refused by 12.
    fn admits_words<W: WordRows>(&self, from: W) -> Result<(), SelectionFault>
        ensures { verdict result ≡ placed Self.sink self.now (W.rows from) };

    // Writes all rows at the start of the sink, or refuses it by 12 as too small and leaves it.
    fn take_words<W: WordRows>(&mut self, from: W) -> Result<(), SelectionFault>
        ensures { Delivers Self.sink self.old (W.rows from) result self.new };
}

impl<'a> WordSink for RunPlace<'a> {
    fn admits_words<W: WordRows>(&self, from: W) -> Result<(), SelectionFault> {
        fits(WordRuns { from, at: 0 }, self)
    }

    fn take_words<W: WordRows>(&mut self, from: W) -> Result<(), SelectionFault> {
        deliver(WordRuns { from, at: 0 }, self)
    }
}

impl<'a> WordSink for MaskPlace<'a> {
    fn admits_words<W: WordRows>(&self, from: W) -> Result<(), SelectionFault> {
        self.admit(from.len(), 0)
    }

    fn take_words<W: WordRows>(&mut self, from: W) -> Result<(), SelectionFault> {
        let n = from.len();
        self.admit(n, 0)?;
        self.clear();
        let words = n / 64;
        for i in 0..words {
            self.append_word(from.word(64 * i));
        }
        self.append_rows(from.word(64 * words), n % 64);
        Ok(())
    }
}
