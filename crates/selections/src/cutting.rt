// A selection cut short, or written as it is.
ghost use Rattle.rows.specs.Rules.{offset, limit};
ghost use Rattle.runs.specs.Sinks.{Delivers, SplitsInto};
ghost use Rattle.selections.specs.Forms.{selection_rows};

use crate::form::RowSelection;
use cuts::limit::limit;
use cuts::run_offset::offset_runs;
use cuts::split::split_off;
use either::Either;
use refusals::fault::SelectionFault;
use runs::convert::convert;
use runs::sink::RowSink;
use words::cut::limit_mask;
use words::offset::offset_mask;
use words::sink::WordSink;
use words::split::split_off_mask;

impl<'a> RowSelection<'a> {
    // Its rows, unaltered, in the form of the sink. Refused by 12.
    pub fn write<K: WordSink>(&self, out: &mut K) -> Result<(), SelectionFault>
        ensures { Delivers K.sink out.old (selection_rows self.now) result out.new }
    {
        match self.mask() {
            Some(mask) => out.take_words(mask),
            None => convert(*self, out),
        }
    }

    // The first n rows, and the rest. Refused by 12 for the first sink, then for the second, before either is written.
    pub fn split_off<K: WordSink, L: WordSink>(
        &self,
        n: usize,
        front: &mut K,
        rest: &mut L,
    ) -> Result<(), SelectionFault>
        ensures { SplitsInto K.sink front.old L.sink rest.old n (selection_rows self.now) result front.new rest.new }
    {
        match self.mask() {
            Some(mask) => split_off_mask(mask, n, front, rest),
            None => split_off(*self, n, front, rest),
        }
    }

    // Its first n selected rows skipped instead; nothing where none is selected past them. Refused by 12.
    pub fn offset<K: WordSink>(&self, n: usize, out: &mut K) -> Result<(), SelectionFault>
        ensures { Delivers K.sink out.old (offset n (selection_rows self.now)) result out.new }
    {
        match self.form {
            Either::Left(list) => offset_runs(list, n, out),
            Either::Right(walk) => offset_mask(walk.rest(), n, out),
        }
    }

    // Up to and with its n-th selected row. Refused by 12.
    pub fn limit<K: WordSink>(&self, n: usize, out: &mut K) -> Result<(), SelectionFault>
        ensures { Delivers K.sink out.old (limit n (selection_rows self.now)) result out.new }
    {
        match self.mask() {
            Some(mask) => out.take_words(limit_mask(mask, n)),
            None => limit(*self, n, out),
        }
    }
}
