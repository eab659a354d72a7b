// Joining two selections and comparing them: by runs and by words of masks.
use crate::given::{OLD, are, has, in_mask, in_masks, in_pairs, in_runs, refused, want};
use algebra::equal::{same_rows, selects_any};
use algebra::join::join;
use bits::mask::Mask;
use masks::place::MaskPlace;
use refusals::refusal::Layer;
use runs::run_place::RunPlace;
use selections::form::RowSelection;
use std::test::Fail;
use words::join::join_masks;
use words::same::same_mask_rows;

// Two selections, and the second's rows after the first's.
const PAIRS: [(&[i32], &[i32], &[i32]); 7] = [
    (&[3, -2], &[-1, 1], &[3, -3, 1]),
    (&[-1, 1], &[3, -2], &[-1, 4, -2]),
    (&[], &[], &[]),
    (&[], &[-1, 2], &[-1, 2]),
    (&[-1, 2], &[], &[-1, 2]),
    (&[-62, 1], &[1, -1, 63], &[-62, 2, -1, 63]),
    (&[64], &[-1, 64], &[64, -1, 64]),
];

// Lists of rows, no two alike, and whether a row is selected.
const LISTS: [(&[i32], bool); 8] = [
    (&[], false),
    (&[-1], false),
    (&[1], true),
    (&[-2, 3, -1, 2], true),
    (&[-2, 3, -1, 1], true),
    (&[-63, 1], true),
    (&[-63, 2], true),
    (&[-65], false),
];

// Whether two selections joined have these runs.
fn joins(first: RowSelection, second: RowSelection, wanted: &[i32]) -> bool {
    let mut slots = [OLD; 4];
    let mut out = RunPlace::new(&mut slots);
    join(first, second, &mut out).is_ok() && are(out.list().runs(), wanted)
}

// Whether two masks joined have these rows.
fn joins_words(first: Mask, second: Mask, wanted: &[i32]) -> bool {
    let mut bytes = [0x55; 17];
    let mut out = MaskPlace::new(&mut bytes);
    join_masks(first, second, &mut out).is_ok() && has(out.mask(), wanted)
}

#[test]
fn the_second_stands_after_the_first(rt: HostRuntime) -> Result<(), Fail> {
    let heap = rt.alloc();
    for (first, second, wanted) in PAIRS {
        want(
            in_pairs(heap, first, second, |a, b| joins(a, b, wanted))?,
            first,
        )?;
        want(
            in_masks(heap, first, second, |a, b| joins_words(a, b, wanted))?,
            first,
        )?;
    }
    Ok(())
}

// Refused at the second part, before the place is looked at.
#[test]
fn no_more_rows_join_than_the_limit(rt: HostRuntime) -> Result<(), Fail> {
    let heap = rt.alloc();
    let all = in_runs(heap, &[1_073_741_824])?;
    let one = in_runs(heap, &[-1])?;
    let mut slots = [OLD; 0];
    let mut none = RunPlace::new(&mut slots);
    let at = Layer::Selection;
    assert!(rt; refused(join(all.list(), one.list(), &mut none), 1, 1, at));
    assert!(rt; refused(join(one.list(), all.list(), &mut none), 1, 1, at));
    let bytes = vec![in heap; 0u8; 67_108_865]?;
    let half = Mask::new(bytes.as_slice(), 0, 536_870_913)?;
    assert!(rt; refused(join_masks(half, half, &mut none), 1, 1, at));
    Ok(())
}

#[test]
fn a_refused_join_leaves_its_place(rt: HostRuntime) -> Result<(), Fail> {
    let heap = rt.alloc();
    let first = in_mask(heap, 2, &[3, -2])?;
    let second = in_mask(heap, 5, &[-1, 3])?;
    let mut slots = [OLD; 2];
    let told = join_masks(first.mask(), second.mask(), &mut RunPlace::new(&mut slots));
    want(
        refused(told, 12, 3, Layer::Selection) && slots == [OLD; 2],
        &[3, -2],
    )?;
    let mut bytes = [0x55; 3];
    let told = join_masks(
        first.mask(),
        second.mask(),
        &mut MaskPlace::new(&mut bytes[..1]),
    );
    want(
        refused(told, 12, 2, Layer::Bits) && bytes == [0x55; 3],
        &[3, -2],
    )?;
    join_masks(first.mask(), second.mask(), &mut MaskPlace::new(&mut bytes))?;
    want(bytes == [0xc7, 0x01, 0x55], &[3, -2])
}

// A list of rows is the same in every form, and no other list is.
#[test]
fn selections_are_equal_by_their_rows(rt: HostRuntime) -> Result<(), Fail> {
    let heap = rt.alloc();
    for (one, any) in LISTS {
        for (other, _) in LISTS {
            let same = one == other;
            let holds = in_pairs(heap, one, other, |a, b| {
                same_rows(a, b) == same && selects_any(a) == any
            })?;
            want(holds, one)?;
            want(
                in_masks(heap, one, other, |a, b| same_mask_rows(a, b) == same)?,
                one,
            )?;
        }
    }
    Ok(())
}
