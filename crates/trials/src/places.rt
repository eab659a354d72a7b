// Places, run lists, and raw runs made into them.
use crate::told::{refused, told};
use masks::iter::MaskRunIter;
use masks::place::MaskPlace;
use refusals::refusal::Layer;
use rows::selector::RowSelector;
use runs::convert::convert;
use runs::place::{Full, Place};
use runs::raw::collect_runs;
use runs::run_place::RunPlace;
use runs::sink::RowSink;
use runs::source::CountedSource;
use std::test::Fail;

const LIMIT: usize = 1_073_741_824;

#[test]
fn a_list_grows_over_lent_memory(rt: HostRuntime) {
    let mut slots = [9u64; 2];
    let mut list = Place::new(&mut slots);
    assert_eq!(rt; list.capacity(), 2);
    assert_eq!(rt; list.last(), None);
    assert_eq!(rt; list.replace_last(1), None);
    assert_eq!(rt; list.push(5), Ok(()));
    assert_eq!(rt; list.push(6), Ok(()));
    assert_eq!(rt; list.push(7), Err(Full));
    assert_eq!(rt; list.replace_last(8), Some(6));
    assert_eq!(rt; list.last(), Some(8));
    assert_eq!(rt; list.items().len(), 2);
    list.clear();
    assert_eq!(rt; list.items().len(), 0);
    assert_eq!(rt; slots[0], 5);
}

#[test]
fn zero_runs_go_and_neighbours_join(rt: HostRuntime) -> Result<(), Fail> {
    let raw = [
        RowSelector::select(3),
        RowSelector::skip(0),
        RowSelector::select(2),
        RowSelector::skip(1),
        RowSelector::skip(4),
    ];
    let mut slots = [RowSelector::skip(0); 2];
    let mut place = RunPlace::new(&mut slots);
    collect_runs(&raw, &mut place)?;
    let list = place.list();
    assert_eq!(rt;
        list.runs(),
        &[RowSelector::select(5), RowSelector::skip(5)][..]
    );
    assert_eq!(rt; (list.rows_left(), list.selected_left()), (10, 5));
    Ok(())
}

#[test]
fn a_small_place_is_refused_and_left(rt: HostRuntime) -> Result<(), Fail> {
    let mut slots = [RowSelector::skip(0); 1];
    let mut place = RunPlace::new(&mut slots);
    collect_runs(&[RowSelector::select(4)], &mut place)?;
    let raw = [
        RowSelector::skip(1),
        RowSelector::select(1),
        RowSelector::skip(1),
    ];
    assert_eq!(rt;
        told(collect_runs(&raw, &mut place)),
        refused(12, 3, Layer::Selection)
    );
    assert_eq!(rt; place.list().selected_left(), 4);
    collect_runs(&[], &mut place)?;
    assert_eq!(rt; place.list().rows_left(), 0);
    Ok(())
}

#[test]
fn the_run_that_passes_the_limit_is_told(rt: HostRuntime) -> Result<(), Fail> {
    let mut slots = [RowSelector::skip(0); 3];
    let mut place = RunPlace::new(&mut slots);
    let all = RowSelector::select(LIMIT);
    collect_runs(&[all], &mut place)?;
    assert_eq!(rt;
        told(collect_runs(
            &[all, RowSelector::skip(0), RowSelector::select(1)],
            &mut place,
        )),
        refused(1, 2, Layer::Selection)
    );
    assert_eq!(rt;
        told(collect_runs(&[RowSelector::skip(LIMIT + 1)], &mut place)),
        refused(1, 0, Layer::Selection)
    );
    assert_eq!(rt;
        told(collect_runs(
            &[RowSelector::skip(1), RowSelector::select(usize::MAX)],
            &mut place,
        )),
        refused(1, 1, Layer::Selection)
    );
    assert_eq!(rt; place.list().selected_left(), LIMIT);
    Ok(())
}

#[test]
fn runs_become_a_mask_and_runs_again(rt: HostRuntime) -> Result<(), Fail> {
    let raw = [
        RowSelector::skip(2),
        RowSelector::select(3),
        RowSelector::skip(1),
        RowSelector::select(2),
    ];
    let mut slots = [RowSelector::skip(0); 4];
    let mut place = RunPlace::new(&mut slots);
    collect_runs(&raw, &mut place)?;
    let mut none = [0u8; 0];
    assert_eq!(rt;
        told(convert(place.list(), &mut MaskPlace::new(&mut none))),
        refused(12, 1, Layer::Bits)
    );
    let mut bytes = [0xff, 0xff];
    let mut mask = MaskPlace::new(&mut bytes);
    convert(place.list(), &mut mask)?;
    let mut more = [RowSelector::skip(7); 4];
    let mut back = RunPlace::new(&mut more);
    convert(MaskRunIter::new(mask.mask()), &mut back)?;
    assert_eq!(rt; back.list().runs(), raw.as_slice());
    assert_eq!(rt; (bytes[0], bytes[1]), (0xdc, 0xff));
    Ok(())
}
