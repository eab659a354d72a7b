// offset, limit and trim: over any sources, on run lists, and on masks by words.
use crate::given::{OLD, S, are, has, in_each, in_mask, in_runs, refused, want};
use cuts::limit::limit;
use cuts::offset::offset;
use cuts::run_offset::offset_runs;
use cuts::trim::trim;
use masks::place::MaskPlace;
use refusals::refusal::Layer;
use runs::run_list::RunList;
use runs::run_place::RunPlace;
use selections::form::RowSelection;
use std::test::Fail;
use words::cut::{limit_mask, trim_mask};
use words::offset::offset_mask;

const MAX: usize = usize::MAX;

// Rows, a number, and the rows with as many selected ones skipped instead. With none past them nothing is left.
const OFFSETS: [(&[i32], usize, &[i32]); 12] = [
    (S, 0, S),
    (S, 1, &[-3, 2, -1, 2]),
    (S, 2, &[-4, 1, -1, 2]),
    (S, 3, &[-6, 2]),
    (S, 5, &[]),
    (S, MAX, &[]),
    (&[-3], 0, &[-3]),
    (&[-3], 1, &[]),
    (&[], 1, &[]),
    (&[65, -1], 63, &[-63, 2, -1]),
    (&[65, -1], 64, &[-64, 1, -1]),
    (&[65, -1], 65, &[]),
];

// Rows, a number, and the rows up to as many selected ones. With fewer all rows stay.
const LIMITS: [(&[i32], usize, &[i32]); 11] = [
    (S, 0, &[]),
    (S, 1, &[-2, 1]),
    (S, 3, &[-2, 3]),
    (S, 4, &[-2, 3, -1, 1]),
    (S, MAX, S),
    (&[2, -3], 2, &[2]),
    (&[2, -3], 3, &[2, -3]),
    (&[], 1, &[]),
    (&[-63, 65], 1, &[-63, 1]),
    (&[-63, 65], 2, &[-63, 2]),
    (&[64, -1, 1, -1], 65, &[64, -1, 1]),
];

// Rows, and the same without the skipped ones at the end.
const TRIMS: [(&[i32], &[i32]); 6] = [
    (&[-4], &[]),
    (&[], &[]),
    (S, S),
    (&[2, -3], &[2]),
    (&[-1, 62, -1, 1, -65], &[-1, 62, -1, 1]),
    (&[64, -1], &[64]),
];

// Whether offset gives these runs, and of a mask these rows.
fn offsets(rows: RowSelection, n: usize, wanted: &[i32]) -> bool {
    let mut slots = [OLD; 4];
    let mut bytes = [0x55; 9];
    let mut out = RunPlace::new(&mut slots);
    let mut words = MaskPlace::new(&mut bytes);
    let Some(mask) = rows.mask() else {
        return offset(rows, n, &mut out).is_ok() && are(out.list().runs(), wanted);
    };
    offset(rows, n, &mut out).is_ok()
        && are(out.list().runs(), wanted)
        && offset_mask(mask, n, &mut words).is_ok()
        && has(words.mask(), wanted)
}

fn offsets_runs(list: RunList, n: usize, wanted: &[i32]) -> bool {
    let mut slots = [OLD; 4];
    let mut out = RunPlace::new(&mut slots);
    offset_runs(list, n, &mut out).is_ok() && are(out.list().runs(), wanted)
}

// Whether limit gives these runs, and of a mask these rows.
fn limits(rows: RowSelection, n: usize, wanted: &[i32]) -> bool {
    let mut slots = [OLD; 4];
    let mut out = RunPlace::new(&mut slots);
    limit(rows, n, &mut out).is_ok()
        && are(out.list().runs(), wanted)
        && rows
            .mask()
            .is_none_or(|mask| has(limit_mask(mask, n), wanted))
}

// Whether trim gives these runs, and of a mask these rows.
fn trims(rows: RowSelection, wanted: &[i32]) -> bool {
    let mut slots = [OLD; 4];
    let mut out = RunPlace::new(&mut slots);
    trim(rows, &mut out).is_ok()
        && are(out.list().runs(), wanted)
        && rows.mask().is_none_or(|mask| has(trim_mask(mask), wanted))
}

#[test]
fn offset_skips_the_first_selected(rt: HostRuntime) -> Result<(), Fail> {
    let heap = rt.alloc();
    for (rows, n, wanted) in OFFSETS {
        want(in_each(heap, rows, |s| offsets(s, n, wanted))?, rows)?;
        want(offsets_runs(in_runs(heap, rows)?.list(), n, wanted), rows)?;
    }
    Ok(())
}

#[test]
fn limit_ends_after_the_nth_selected(rt: HostRuntime) -> Result<(), Fail> {
    for (rows, n, wanted) in LIMITS {
        want(in_each(rt.alloc(), rows, |s| limits(s, n, wanted))?, rows)?;
    }
    Ok(())
}

#[test]
fn trim_drops_the_skips_at_the_end(rt: HostRuntime) -> Result<(), Fail> {
    for (rows, wanted) in TRIMS {
        want(in_each(rt.alloc(), rows, |s| trims(s, wanted))?, rows)?;
    }
    Ok(())
}

#[test]
fn refused_cuts_leave_their_place(rt: HostRuntime) -> Result<(), Fail> {
    let heap = rt.alloc();
    let list = in_runs(heap, S)?;
    let mut slots = [OLD; 3];
    let mut out = RunPlace::new(&mut slots);
    limit(list.list(), 1, &mut out)?;
    let at = Layer::Selection;
    want(refused(offset(list.list(), 2, &mut out), 12, 4, at), S)?;
    want(refused(offset_runs(list.list(), 1, &mut out), 12, 4, at), S)?;
    want(refused(limit(list.list(), 4, &mut out), 12, 4, at), S)?;
    want(refused(trim(list.list(), &mut out), 12, 4, at), S)?;
    want(are(out.list().runs(), &[-2, 1]) && slots[2] == OLD, S)?;
    let mut bytes = [0x55; 1];
    let long = in_mask(heap, 0, &[9])?;
    let told = offset_mask(long.mask(), 1, &mut MaskPlace::new(&mut bytes));
    want(refused(told, 12, 2, Layer::Bits) && bytes[0] == 0x55, &[9])
}
