// What the laws of a policy say of whole selections, proved once for every policy.
ghost use Rattle.std.specs.Prelude.{◌≡◌};
ghost use Rattle.policies.specs.Orders.{AnyOrder};

use crate::policy::Policy;

// Combining gives the same rows in any order and bracketing, and equal rows combine to themselves; the number of these statements.
pub fn any_order<P: Policy>(policy: P) -> usize
    ensures { (result ≡ 3) × AnyOrder P.Policy.rule }
{
    let _ = policy;
    3
}
