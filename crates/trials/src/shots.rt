// Filters, and the shots that they leave.
use bits::mask::Mask;
use masks::iter::MaskRunIter;
use rows::selector::RowSelector;
use std::test::Fail;
use survey::filter::{Field, Filter};
use survey::judge::judge;
use survey::keep::kept;
use survey::shot::Shot;

fn shot(to: u32, inclination: i32) -> Shot {
    Shot {
        from: 1,
        to,
        length: 5000,
        azimuth: 900,
        inclination,
    }
}

#[test]
fn both_ends_of_a_range_pass(rt: HostRuntime) {
    let level = Filter {
        field: Field::Inclination,
        least: -300,
        most: 300,
    };
    assert!(rt; level.keeps(shot(2, -300)) && level.keeps(shot(2, 300)));
    assert!(rt; !level.keeps(shot(2, -301)) && !level.keeps(shot(2, 301)));
    assert_eq!(rt;
        (Field::From.of(shot(2, 0)), Field::To.of(shot(2, 0))),
        (1, 2)
    );
    assert_eq!(rt;
        (Field::Length.of(shot(2, 0)), Field::Azimuth.of(shot(2, 0))),
        (5000, 900)
    );
}

#[test]
fn a_filter_judges_each_shot_in_order(rt: HostRuntime) -> Result<(), Fail> {
    let legs = Filter {
        field: Field::To,
        least: 1,
        most: 99,
    };
    let runs = judge(rt.alloc(), legs, &[shot(2, 0), shot(0, 0), shot(3, 0)])?;
    assert_eq!(rt;
        runs.as_slice(),
        &[
            RowSelector::select(1),
            RowSelector::skip(1),
            RowSelector::select(1),
        ][..]
    );
    Ok(())
}

#[test]
fn the_shots_left_are_those_selected(rt: HostRuntime) -> Result<(), Fail> {
    let shots = [shot(1, 0), shot(2, 0), shot(3, 0), shot(4, 0), shot(5, 0)];
    let mask = Mask::new(&[0x1a], 0, 5)?;
    let left = kept(rt.alloc(), MaskRunIter::new(mask), &shots)?;
    assert_eq!(rt; left.as_slice(), &[shot(2, 0), shot(4, 0), shot(5, 0)][..]);
    let none = kept(rt.alloc(), MaskRunIter::new(mask), &[])?;
    assert_eq!(rt; none.len(), 0);
    Ok(())
}
