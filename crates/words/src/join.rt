// A mask's rows written after another's, word by word.
ghost use Rattle.runs.specs.Sinks.{JoinsInto};
ghost use Rattle.bits.specs.Masks.{rows as rows_of_mask};

use crate::joined::Joined;
use crate::sink::WordSink;
use crate::word_rows::WordRows;
use bits::mask::Mask;
use refusals::fault::SelectionFault;
use rows::limit::ROW_LIMIT;
use runs::sink::RowSink;

// The second's rows after the first's. Refused by 1 where they pass the row limit together, then by 12.
pub fn join_masks<K: WordSink>(first: Mask, second: Mask, out: &mut K) -> Result<(), SelectionFault>
    ensures { JoinsInto K.sink out.old (rows_of_mask first.entry) (rows_of_mask second.entry) result out.new }
{
    if first.len() + second.len() > ROW_LIMIT {
        return Err(SelectionFault::RowLimit(1));
    }
    out.take_words(Joined { first, second })
}
