// Two selections combined under a policy: `intersection` under AND, `union` under OR.
ghost use Rattle.std.specs.Prelude.{OnOk};
ghost use Rattle.rows.specs.Rules.{combine};
ghost use Rattle.rows.specs.Said.{RowByRow};
ghost use Rattle.runs.specs.Sinks.{Delivers};

use crate::combined::Combined;
use policies::policy::Policy;
use refusals::fault::SelectionFault;
use runs::deliver::deliver;
use runs::sink::RowSink;
use runs::source::RunSource;

// Where both have a row, its mark is the policy's of the two; beyond the shorter, the longer's rows pass through. Refused by 12.
pub fn combine<A: RunSource, B: RunSource, P: Policy, K: RowSink>(
    first: A,
    second: B,
    policy: P,
    out: &mut K,
) -> Result<(), SelectionFault>
    ensures delivers { Delivers K.sink out.old (combine P.rule (A.rows first) (B.rows second)) result out.new }
    ensures row_by_row { OnOk result (RowByRow P.rule (A.rows first) (B.rows second) (K.sink.rows out.new)) }
{
    deliver(Combined::new(first, second, policy), out)
}
