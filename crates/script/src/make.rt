// Selections made from what the line gives.
use crate::args::Args;
use crate::no::No;
use algebra::ranges::from_consecutive_ranges;
use rows::selector::RowSelector;
use runs::raw::collect_runs;
use runs::run_place::RunPlace;
use std::alloc::Global;
use stored::bytes::StoredMask;
use stored::held::Stored;
use stored::stored_runs::StoredRuns;

// Raw runs in a place of at most so many; they have no more whole runs than runs.
pub(crate) fn collected(heap: Global, raw: &[RowSelector], most: usize) -> Result<Stored, No> {
    let mut place = vec![in heap; RowSelector::skip(0); raw.len().min(most)]?;
    let mut place = RunPlace::new(place.as_mut_slice());
    collect_runs(raw, &mut place)?;
    Ok(Stored::Runs(StoredRuns::copy_of(heap, place.list())?))
}

pub(crate) fn runs_of(heap: Global, args: Args<'_>) -> Result<Stored, No> {
    collected(heap, args.runs()?, args.number(1)?)
}

// Ranges of a total in a place of at most so many runs; each has at most two, and the end one.
pub(crate) fn ranges_of(heap: Global, args: Args<'_>) -> Result<Stored, No> {
    let ranges = args.ranges()?;
    let bound = ranges.len().saturating_mul(2).saturating_add(1);
    let mut place = vec![in heap; RowSelector::skip(0); bound.min(args.number(1)?)]?;
    let mut place = RunPlace::new(place.as_mut_slice());
    from_consecutive_ranges(ranges, args.number(2)?, &mut place)?;
    Ok(Stored::Runs(StoredRuns::copy_of(heap, place.list())?))
}

pub(crate) fn mask_of(heap: Global, args: Args<'_>) -> Result<Stored, No> {
    let bytes = args.bytes()?.to_vec(heap)?;
    let mask = StoredMask::new(bytes, args.number(1)?, args.number(2)?)?;
    Ok(Stored::Mask(mask))
}
