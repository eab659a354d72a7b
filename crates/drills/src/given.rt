// How the tests write selections: 3 is a run of three selected rows, -3 one of three skipped ones.
use bits::mask::Mask;
use refusals::fault::SelectionFault;
use refusals::refusal::Layer;
use rows::selector::RowSelector;
use runs::raw::collect_runs;
use runs::run_place::RunPlace;
use selections::form::RowSelection;
use std::alloc::Global;
use std::test::Fail;
use stored::bytes::StoredMask;
use stored::held::Stored;
use stored::stored_runs::StoredRuns;

// What places hold before a call.
pub(crate) const OLD: RowSelector = RowSelector {
    row_count: 77,
    skip: true,
};

// S of the worked selections.
pub(crate) const S: &[i32] = &[-2, 3, -1, 2];

fn run(n: i32) -> RowSelector {
    RowSelector {
        row_count: n.unsigned_abs() as usize,
        skip: n < 0,
    }
}

// In runs.
pub(crate) fn in_runs(heap: Global, rows: &[i32]) -> Result<StoredRuns, Fail> {
    let mut raw = Vec::new(heap);
    for n in rows {
        raw.push(run(*n))?;
    }
    let mut slots = vec![in heap; OLD; rows.len()]?;
    let mut place = RunPlace::new(slots.as_mut_slice());
    collect_runs(raw.as_slice(), &mut place)?;
    Ok(StoredRuns::copy_of(heap, place.list())?)
}

// In a mask from bit `offset` on. The bits that are no rows are ones.
pub(crate) fn in_mask(heap: Global, offset: usize, rows: &[i32]) -> Result<StoredMask, Fail> {
    let mut bytes = vec![in heap; 0xffu8; 30]?;
    let mut at = offset;
    for n in rows {
        let run = run(*n);
        for _ in 0..run.row_count {
            if run.skip {
                if let Some(byte) = bytes.get_mut(at / 8) {
                    *byte &= !(1 << (at % 8));
                }
            }
            at = at.wrapping_add(1);
        }
    }
    Ok(StoredMask::new(bytes, offset, at.wrapping_sub(offset))?)
}

// In runs, in a mask, and in one that begins within a byte.
pub(crate) fn forms(heap: Global, rows: &[i32]) -> Result<[Stored; 3], Fail> {
    Ok([
        Stored::Runs(in_runs(heap, rows)?),
        Stored::Mask(in_mask(heap, 0, rows)?),
        Stored::Mask(in_mask(heap, 5, rows)?),
    ])
}

// Whether something holds of rows in each of their forms.
pub(crate) fn in_each<F: for<'s> Fn(RowSelection<'s>) -> bool>(
    heap: Global,
    rows: &[i32],
    holds: F,
) -> Result<bool, Fail>
    requires { F.IsAlwaysCallable holds }
{
    for form in &forms(heap, rows)? {
        if !holds(form.selection()) {
            return Ok(false);
        }
    }
    Ok(true)
}

// Whether something holds of two lists of rows, each in each of its forms.
pub(crate) fn in_pairs<F: for<'s, 't> Fn(RowSelection<'s>, RowSelection<'t>) -> bool>(
    heap: Global,
    first: &[i32],
    second: &[i32],
    holds: F,
) -> Result<bool, Fail>
    requires { F.IsAlwaysCallable holds }
{
    let others = forms(heap, second)?;
    for one in &forms(heap, first)? {
        for other in &others {
            if !holds(one.selection(), other.selection()) {
                return Ok(false);
            }
        }
    }
    Ok(true)
}

// Whether something holds of two masks, each from each bit of a byte on.
pub(crate) fn in_masks<F: for<'s, 't> Fn(Mask<'s>, Mask<'t>) -> bool>(
    heap: Global,
    first: &[i32],
    second: &[i32],
    holds: F,
) -> Result<bool, Fail>
    requires { F.IsAlwaysCallable holds }
{
    for at in 0..8 {
        let one = in_mask(heap, at, first)?;
        for from in 0..8 {
            let other = in_mask(heap, from, second)?;
            if !holds(one.mask(), other.mask()) {
                return Ok(false);
            }
        }
    }
    Ok(true)
}

// Whether these are the runs.
pub(crate) fn are(runs: &[RowSelector], wanted: &[i32]) -> bool {
    runs.len() == wanted.len() && runs.iter().zip(wanted).all(|(held, n)| *held == run(*n))
}

// Whether these are the mask's rows.
pub(crate) fn has(mask: Mask, wanted: &[i32]) -> bool {
    let mut at: usize = 0;
    for n in wanted {
        let run = run(*n);
        for _ in 0..run.row_count {
            if mask.value(at) != Some(!run.skip) {
                return false;
            }
            at = at.wrapping_add(1);
        }
    }
    mask.len() == at
}

// Whether a call was refused by this number with this place, in this layer.
pub(crate) fn refused(
    r: Result<(), SelectionFault>,
    number: u8,
    place: usize,
    layer: Layer,
) -> bool {
    let Err(fault) = r else {
        return false;
    };
    let refusal = fault.refusal();
    refusal.number == number && refusal.place == place && refusal.layer == layer
}

// Goes on where a case holds, and else fails with it.
pub(crate) fn want(holds: bool, case: &[i32]) -> Result<(), Fail> {
    if holds {
        return Ok(());
    }
    Err(Fail::new(format_args!("not so at {case:?}")))
}
