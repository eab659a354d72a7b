// The first rows of a mask and the rest of it, written word by word.
ghost use Rattle.runs.specs.Sinks.{SplitsInto};
ghost use Rattle.bits.specs.Masks.{rows as rows_of_mask};

use crate::cut::split_mask;
use crate::sink::WordSink;
use bits::mask::Mask;
use refusals::fault::SelectionFault;
use runs::sink::RowSink;

// The first n rows in one sink, and the rows after them in another. Refused by 12 for the first, then for the second, before either is written.
pub fn split_off_mask<K: WordSink, L: WordSink>(
    mask: Mask,
    n: usize,
    front: &mut K,
    rest: &mut L,
) -> Result<(), SelectionFault>
    ensures { SplitsInto K.sink front.old L.sink rest.old n (rows_of_mask mask.entry) result front.new rest.new }
{
    let (first, second) = split_mask(mask, n);
    front.admits_words(first)?;
    rest.admits_words(second)?;
    front.take_words(first)?;
    rest.take_words(second)
}
