// The two policies: rows that both selections select, and rows that one of them does.
ghost use Rattle.std.specs.Prelude.{◌&&◌, ◌||◌};
ghost use Rattle.std.proofs.Common.{rules};

use crate::policy::Policy;

// Selected where both select: the policy of `intersection`.
#[derive(Clone, Copy)]
pub struct And;

// Selected where one of them selects: the policy of `union`.
#[derive(Clone, Copy)]
pub struct Or;

impl Policy for And {
    ghost rule = { λ x y. x && y };

    ghost assoc = { Prim.search rules };

    ghost comm = { Prim.search rules };

    ghost idem = { Prim.search rules };

    fn mark(a: bool, b: bool) -> bool {
        a & b
    }

    fn word(a: u64, b: u64) -> u64 {
        a & b
    }
}

impl Policy for Or {
    ghost rule = { λ x y. x || y };

    ghost assoc = { Prim.search rules };

    ghost comm = { Prim.search rules };

    ghost idem = { Prim.search rules };

    fn mark(a: bool, b: bool) -> bool {
        a | b
    }

    fn word(a: u64, b: u64) -> u64 {
        a | b
    }
}
