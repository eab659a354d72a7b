// and_then and the strategy, in runs and masks.
use crate::told::{refused, told};
use algebra::and_then::and_then;
use algebra::strategy::auto_selection_strategy;
use bits::mask::Mask;
use masks::iter::MaskRunIter;
use masks::place::MaskPlace;
use refusals::refusal::Layer;
use rows::selector::RowSelector;
use rows::strategy::RowSelectionStrategy;
use runs::raw::collect_runs;
use runs::run_place::RunPlace;
use runs::source::CountedSource;
use std::test::Fail;

// -2 +3 -1 +2 and_then +1 -1 +3, with the first in runs and the second in a mask.
#[test]
fn the_second_is_read_by_rank(rt: HostRuntime) -> Result<(), Fail> {
    let raw = [
        RowSelector::skip(2),
        RowSelector::select(3),
        RowSelector::skip(1),
        RowSelector::select(2),
    ];
    let mut slots = [RowSelector::skip(0); 4];
    let mut first = RunPlace::new(&mut slots);
    collect_runs(&raw, &mut first)?;
    let second = Mask::new(&[0x1d], 0, 5)?;
    let mut more = [RowSelector::skip(0); 6];
    let mut out = RunPlace::new(&mut more);
    and_then(first.list(), MaskRunIter::new(second), &mut out)?;
    let wanted = [
        RowSelector::skip(2),
        RowSelector::select(1),
        RowSelector::skip(1),
        RowSelector::select(1),
        RowSelector::skip(1),
        RowSelector::select(2),
    ];
    assert_eq!(rt; out.list().runs(), wanted.as_slice());
    Ok(())
}

#[test]
fn lengths_and_places_are_refused_in_turn(rt: HostRuntime) -> Result<(), Fail> {
    let first = MaskRunIter::new(Mask::new(&[0xdc], 0, 8)?);
    let all = Mask::new(&[0xff], 0, 8)?;
    let mut none = [RowSelector::skip(0); 0];
    let mut place = RunPlace::new(&mut none);
    assert_eq!(rt;
        told(and_then(first, MaskRunIter::new(all.slice(0, 4)), &mut place)),
        refused(4, 4, Layer::Selection)
    );
    assert_eq!(rt;
        told(and_then(first, MaskRunIter::new(all.slice(0, 6)), &mut place)),
        refused(5, 5, Layer::Selection)
    );
    assert_eq!(rt;
        told(and_then(first, MaskRunIter::new(all.slice(0, 5)), &mut place)),
        refused(12, 4, Layer::Selection)
    );
    let mut bytes = [0u8; 0];
    let mut short = MaskPlace::new(&mut bytes);
    assert_eq!(rt;
        told(and_then(first, MaskRunIter::new(all.slice(0, 5)), &mut short)),
        refused(12, 1, Layer::Bits)
    );
    Ok(())
}

// -3 and_then nothing keeps its rows; nothing and_then nothing has none.
#[test]
fn trailing_skips_are_kept(rt: HostRuntime) -> Result<(), Fail> {
    let zeros = MaskRunIter::new(Mask::new(&[0], 0, 3)?);
    let none = MaskRunIter::new(Mask::new(&[], 0, 0)?);
    let mut slots = [RowSelector::skip(0); 1];
    let mut out = RunPlace::new(&mut slots);
    and_then(zeros, none, &mut out)?;
    assert_eq!(rt; out.list().runs(), &[RowSelector::skip(3)][..]);
    and_then(none, none, &mut out)?;
    assert_eq!(rt; out.list().rows_left(), 0);
    Ok(())
}

#[test]
fn the_strategy_turns_at_its_threshold(rt: HostRuntime) -> Result<(), Fail> {
    let mask = Mask::new(&[0xdc], 0, 8)?;
    let s = MaskRunIter::new(mask);
    let none = MaskRunIter::new(mask.slice(8, 0));
    assert_eq!(rt;
        auto_selection_strategy(s, 0),
        RowSelectionStrategy::Selectors
    );
    assert_eq!(rt;
        auto_selection_strategy(s, 2),
        RowSelectionStrategy::Selectors
    );
    assert_eq!(rt; auto_selection_strategy(s, 3), RowSelectionStrategy::Mask);
    assert_eq!(rt;
        auto_selection_strategy(s, usize::MAX),
        RowSelectionStrategy::Mask
    );
    assert_eq!(rt;
        auto_selection_strategy(none, 0),
        RowSelectionStrategy::Mask
    );
    Ok(())
}
