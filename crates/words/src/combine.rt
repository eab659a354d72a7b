// Two masks combined under a policy, word by word.
ghost use Rattle.rows.specs.Rules.{combine};
ghost use Rattle.runs.specs.Sinks.{Delivers};
ghost use Rattle.bits.specs.Masks.{rows as rows_of_mask};

use crate::combined::Combined;
use crate::sink::WordSink;
use bits::mask::Mask;
use policies::policy::Policy;
use refusals::fault::SelectionFault;
use runs::sink::RowSink;

// Where both have row i, its mark is the policy's mark of the two; beyond the shorter, the longer's rows pass through. Refused by 12.
pub fn combine_masks<P: Policy, K: WordSink>(
    first: Mask,
    second: Mask,
    policy: P,
    out: &mut K,
) -> Result<(), SelectionFault>
    ensures { Delivers K.sink out.old (combine P.rule (rows_of_mask first.entry) (rows_of_mask second.entry)) result out.new }
{
    out.take_words(Combined {
        first,
        second,
        policy,
    })
}
