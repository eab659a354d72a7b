// Combining under a policy: by runs and by words of masks.
ghost use Rattle.std.specs.Prelude.{◌||◌};
ghost use Rattle.std.proofs.Common.{rules};

use crate::given::{OLD, are, has, in_mask, in_masks, in_pairs, in_runs, refused, want};
use algebra::combine::combine;
use bits::mask::Mask;
use masks::place::MaskPlace;
use policies::both::{And, Or};
use policies::order::any_order;
use policies::policy::Policy;
use refusals::refusal::Layer;
use runs::run_place::RunPlace;
use selections::form::RowSelection;
use std::test::Fail;
use words::combine::combine_masks;

// A policy of a user: not both are skipped. Its words are those of OR.
#[derive(Clone, Copy)]
struct NotBothSkipped;

impl Policy for NotBothSkipped {
    ghost rule = { λ x y. x || y };

    ghost assoc = { Prim.search rules };

    ghost comm = { Prim.search rules };

    ghost idem = { Prim.search rules };

    fn mark(a: bool, b: bool) -> bool {
        !(!a & !b)
    }

    fn word(a: u64, b: u64) -> u64 {
        Or::word(a, b)
    }
}

// Two selections, the rows that both select, and those that one of them does. Past the shorter the longer's rows stay.
const PAIRS: [(&[i32], &[i32], &[i32], &[i32]); 8] = [
    (&[3, -2], &[-1, 1], &[-1, 2, -2], &[3, -2]),
    (&[-1, 1], &[3, -2], &[-1, 2, -2], &[3, -2]),
    (&[], &[], &[], &[]),
    (&[2, -1], &[], &[2, -1], &[2, -1]),
    (&[], &[-3], &[-3], &[-3]),
    (&[-63, 65], &[63, 2], &[-63, 65], &[128]),
    (&[64], &[-65], &[-65], &[64, -1]),
    (&[-1, 1, -61], &[1, -1, 63], &[-63, 2], &[65]),
];

// Whether the combination of two selections has these runs.
fn combines<P: Policy>(
    policy: P,
    first: RowSelection,
    second: RowSelection,
    wanted: &[i32],
) -> bool {
    let mut slots = [OLD; 4];
    let mut out = RunPlace::new(&mut slots);
    combine(first, second, policy, &mut out).is_ok() && are(out.list().runs(), wanted)
}

// Whether the combination of two masks has these rows.
fn combines_words<P: Policy>(policy: P, first: Mask, second: Mask, wanted: &[i32]) -> bool {
    let mut bytes = [0x55; 17];
    let mut out = MaskPlace::new(&mut bytes);
    combine_masks(first, second, policy, &mut out).is_ok() && has(out.mask(), wanted)
}

#[test]
fn rows_combine_one_by_one(rt: HostRuntime) -> Result<(), Fail> {
    let heap = rt.alloc();
    for (first, second, both, either) in PAIRS {
        let holds = in_pairs(heap, first, second, |a, b| {
            combines(And, a, b, both)
                && combines(Or, a, b, either)
                && combines(NotBothSkipped, a, b, either)
        })?;
        want(holds, first)?;
    }
    Ok(())
}

#[test]
fn words_are_shifted_before_they_combine(rt: HostRuntime) -> Result<(), Fail> {
    let heap = rt.alloc();
    for (first, second, both, either) in PAIRS {
        let holds = in_masks(heap, first, second, |a, b| {
            combines_words(And, a, b, both)
                && combines_words(Or, a, b, either)
                && combines_words(NotBothSkipped, a, b, either)
        })?;
        want(holds, first)?;
    }
    assert!(rt; any_order(NotBothSkipped) == 3);
    Ok(())
}

#[test]
fn a_refused_combination_leaves_its_place(rt: HostRuntime) -> Result<(), Fail> {
    let heap = rt.alloc();
    let list = in_runs(heap, &[-1, 1])?;
    let mut slots = [OLD; 1];
    let mut out = RunPlace::new(&mut slots);
    let told = combine(list.list(), list.list(), Or, &mut out);
    want(refused(told, 12, 2, Layer::Selection), &[-1, 1])?;
    want(slots[0] == OLD, &[-1, 1])?;
    let long = in_mask(heap, 3, &[-63, 2])?;
    let mut bytes = [0x55; 10];
    let told = combine_masks(
        long.mask(),
        long.mask(),
        Or,
        &mut MaskPlace::new(&mut bytes[..8]),
    );
    want(refused(told, 12, 9, Layer::Bits), &[-63, 2])?;
    want(bytes == [0x55; 10], &[-63, 2])?;
    // Done, the spare bits are zeros, and the bytes beyond are as they were.
    combine_masks(
        long.mask(),
        long.mask(),
        Or,
        &mut MaskPlace::new(&mut bytes),
    )?;
    want(
        (bytes[7], bytes[8], bytes[9]) == (0x80, 0x01, 0x55),
        &[-63, 2],
    )
}
