// The first selected rows of a mask skipped, word by word.
ghost use Rattle.std.specs.Prelude.{◌≡◌, length, nat_lt};
ghost use Rattle.rows.specs.Rules.{offset, trimmed};
ghost use Rattle.runs.specs.Sinks.{Delivers};
ghost use Rattle.bits.specs.Masks.{rows as rows_of_mask};
ghost use Rattle.words.specs.Fronts.{skip_front};

use crate::sink::WordSink;
use crate::skipped::SkippedTo;
use bits::mask::Mask;
use refusals::fault::SelectionFault;
use runs::sink::RowSink;

// Whether a row from row `cut` on is selected.
fn selects_from(mask: Mask, cut: usize) -> bool
    ensures { result ≡ nat_lt cut (length (trimmed (rows_of_mask mask.entry))) }
{
    mask.last_set_bit().is_some_and(|last| cut <= last)
}

// The mask with its first n selected rows skipped, or no rows where no selected row is past the n-th.
fn after_nth<'a>(mask: Mask<'a>, n: usize) -> SkippedTo<'a>
    ensures { skip_front result.cut (rows_of_mask result.mask) ≡ offset n (rows_of_mask mask.entry) }
{
    let cut = mask.find_nth_set_bit_position(n);
    if n > 0 && !selects_from(mask, cut) {
        return SkippedTo {
            mask: mask.slice(0, 0),
            cut: 0,
        };
    }
    SkippedTo { mask, cut }
}

// The first n selected rows are skipped instead; where no selected row is past the n-th, nothing is left. Refused by 12.
pub fn offset_mask<K: WordSink>(mask: Mask, n: usize, out: &mut K) -> Result<(), SelectionFault>
    ensures { Delivers K.sink out.old (offset n (rows_of_mask mask.entry)) result out.new }
{
    out.take_words(after_nth(mask, n))
}
