// split_off: over any sources, and on masks by words.
use crate::given::{OLD, S, are, has, in_each, in_mask, in_masks, in_runs, refused, want};
use bits::mask::Mask;
use cuts::split::split_off;
use masks::place::MaskPlace;
use refusals::refusal::Layer;
use runs::run_place::RunPlace;
use selections::form::RowSelection;
use std::test::Fail;
use words::split::split_off_mask;

// Rows, a number, the first so many, and the rest.
const SPLITS: [(&[i32], usize, &[i32], &[i32]); 8] = [
    (S, 0, &[], S),
    (S, 2, &[-2], &[3, -1, 2]),
    (S, 4, &[-2, 2], &[1, -1, 2]),
    (S, 8, S, &[]),
    (S, usize::MAX, S, &[]),
    (&[-63, 65], 63, &[-63], &[65]),
    (&[-63, 65], 64, &[-63, 1], &[64]),
    (&[-63, 65], 65, &[-63, 2], &[63]),
];

// Whether the parts are these.
fn splits(rows: RowSelection, n: usize, first: &[i32], second: &[i32]) -> bool {
    let mut slots = [OLD; 4];
    let mut bytes = [0x55; 9];
    let mut runs = RunPlace::new(&mut slots);
    let mut mask = MaskPlace::new(&mut bytes);
    split_off(rows, n, &mut runs, &mut mask).is_ok()
        && are(runs.list().runs(), first)
        && has(mask.mask(), second)
}

// Whether the parts of a mask are these.
fn splits_words(rows: Mask, n: usize, first: &[i32], second: &[i32]) -> bool {
    let mut slots = [OLD; 4];
    let mut bytes = [0x55; 9];
    let mut runs = RunPlace::new(&mut slots);
    let mut mask = MaskPlace::new(&mut bytes);
    split_off_mask(rows, n, &mut mask, &mut runs).is_ok()
        && has(mask.mask(), first)
        && are(runs.list().runs(), second)
}

#[test]
fn split_off_parts_the_rows(rt: HostRuntime) -> Result<(), Fail> {
    let heap = rt.alloc();
    for (rows, n, first, second) in SPLITS {
        want(in_each(heap, rows, |s| splits(s, n, first, second))?, rows)?;
        let holds = in_masks(heap, rows, rows, |s, _| splits_words(s, n, first, second))?;
        want(holds, rows)?;
    }
    Ok(())
}

// The first part's place is looked at first, and neither is written before both are.
#[test]
fn a_refused_split_leaves_both_places(rt: HostRuntime) -> Result<(), Fail> {
    let heap = rt.alloc();
    let list = in_runs(heap, S)?;
    let mask = in_mask(heap, 4, S)?;
    let mut slots = [OLD; 2];
    let mut none = [0u8; 0];
    let mut runs = RunPlace::new(&mut slots);
    let mut bytes = MaskPlace::new(&mut none);
    let told = split_off(list.list(), 4, &mut bytes, &mut runs);
    want(refused(told, 12, 1, Layer::Bits), S)?;
    let told = split_off(list.list(), 4, &mut runs, &mut bytes);
    want(refused(told, 12, 1, Layer::Bits), S)?;
    let told = split_off_mask(mask.mask(), 6, &mut runs, &mut bytes);
    want(refused(told, 12, 3, Layer::Selection), S)?;
    want(slots == [OLD; 2], S)
}
