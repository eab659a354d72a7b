// Selections that own their memory, and operations that wait for room.
use crate::given::{S, are, has, in_each, in_mask, in_pairs, in_runs, refused, want};
use policies::both::And;
use refusals::refusal::Layer;
use selections::form::RowSelection;
use std::alloc::Global;
use std::test::Fail;
use stored::held::Stored;
use stored::operation::{Combine, Operate, Operation};
use stored::perform::{into_mask, into_runs, perform};
use stored::room::Room;
use stored::split::split_stored;
use stored::trouble::Trouble;

// Whether it has these rows.
fn holds(stored: &Stored, wanted: &[i32]) -> bool {
    match stored {
        Stored::Runs(runs) => are(runs.list().runs(), wanted),
        Stored::Mask(mask) => has(mask.mask(), wanted),
    }
}

// Whether a call was refused by 12 with this place, in this layer.
fn too_small<T: Drop>(r: Result<T, Trouble>, place: usize, layer: Layer) -> bool {
    match r {
        Err(Trouble::Refused(fault)) => refused(Err(fault), 12, place, layer),
        _ => false,
    }
}

// Each operation of S in runs, of S in a mask, and of a third selection: its natural form, and its rows.
fn all_made(heap: Global, s: RowSelection, t: RowSelection, u: RowSelection) -> Result<(), Fail> {
    for (operation, is_mask, wanted) in [
        (Operation::Convert(t), true, S),
        (Operation::Narrow(s, u), false, &[-2, 1, -1, 1, -1, 2]),
        (Operation::Narrow(t, u), true, &[-2, 1, -1, 1, -1, 2]),
        (Operation::And(t, u), false, S),
        (Operation::And(t, t), true, S),
        (Operation::Or(s, u), false, &[1, -1, 3, -1, 2]),
        (Operation::Join(t, s), false, &[-2, 3, -1, 2, -2, 3, -1, 2]),
        (Operation::Offset(t, 2), true, &[-4, 1, -1, 2]),
        (Operation::Limit(s, 3), false, &[-2, 3]),
        (Operation::Trim(t), true, S),
    ] {
        want(operation.is_mask() == is_mask, wanted)?;
        let made = into_runs(heap, operation, usize::MAX)?;
        want(are(made.list().runs(), wanted), wanted)?;
        let made = into_mask(heap, operation, usize::MAX)?;
        want(has(made.mask(), wanted), wanted)?;
    }
    Ok(())
}

#[test]
fn every_operation_finds_its_room(rt: HostRuntime) -> Result<(), Fail> {
    let heap = rt.alloc();
    let runs = in_runs(heap, S)?;
    let mask = in_mask(heap, 5, S)?;
    let second = in_runs(heap, &[1, -1, 3])?;
    all_made(
        heap,
        RowSelection::from_runs(runs.list()),
        RowSelection::from_mask(mask.mask()),
        RowSelection::from_runs(second.list()),
    )
}

// Whether a result has this form and these rows.
fn is_made(made: Result<Stored, Trouble>, is_mask: bool, wanted: &[i32]) -> bool {
    match made {
        Ok(stored) => stored.is_mask() == is_mask && holds(&stored, wanted),
        Err(_) => false,
    }
}

fn has_the_form(heap: Global, s: RowSelection) -> bool {
    let limit = Operation::Limit(s, 3);
    is_made(perform(heap, limit, Room::Runs(2)), false, &[-2, 3])
        && is_made(perform(heap, limit, Room::Mask(1)), true, &[-2, 3])
        && too_small(perform(heap, limit, Room::Runs(1)), 2, Layer::Selection)
        && too_small(perform(heap, limit, Room::Mask(0)), 1, Layer::Bits)
}

#[test]
fn a_result_has_the_form_of_its_room(rt: HostRuntime) -> Result<(), Fail> {
    let heap = rt.alloc();
    want(in_each(heap, S, |s| has_the_form(heap, s))?, S)
}

fn combines(heap: Global, first: RowSelection, second: RowSelection) -> bool {
    let both = Combine {
        first,
        second,
        policy: And,
    };
    both.is_mask() == (first.is_mask() && second.is_mask())
        && is_made(perform(heap, both, Room::Mask(1)), true, &[-1, 2, -2])
}

#[test]
fn a_policy_combines_what_is_stored(rt: HostRuntime) -> Result<(), Fail> {
    let heap = rt.alloc();
    want(
        in_pairs(heap, &[3, -2], &[-1, 1], |a, b| combines(heap, a, b))?,
        &[3, -2],
    )
}

// Whether S splits after four rows into runs and a mask.
fn splits(heap: Global, s: RowSelection) -> bool {
    let Ok((front, rest)) = split_stored(heap, s, 4, Room::Runs(2), Room::Mask(1)) else {
        return false;
    };
    is_made(Ok(front), false, &[-2, 2]) && is_made(Ok(rest), true, &[1, -1, 2])
}

fn finds_no_room(heap: Global, s: RowSelection) -> bool {
    let runs = split_stored(heap, s, 4, Room::Runs(1), Room::Mask(0));
    let mask = split_stored(heap, s, 4, Room::Runs(2), Room::Mask(0));
    let rest = split_stored(heap, s, 4, Room::Mask(1), Room::Runs(2));
    too_small(runs, 2, Layer::Selection)
        && too_small(mask, 1, Layer::Bits)
        && too_small(rest, 3, Layer::Selection)
}

#[test]
fn what_is_stored_splits_in_two(rt: HostRuntime) -> Result<(), Fail> {
    let heap = rt.alloc();
    want(
        in_each(heap, S, |s| splits(heap, s) && finds_no_room(heap, s))?,
        S,
    )
}
