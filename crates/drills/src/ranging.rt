// A selection made of ranges of a total.
use crate::given::{OLD, are, refused, want};
use algebra::ranges::from_consecutive_ranges;
use refusals::refusal::Layer;
use rows::range::RowRange;
use runs::run_place::RunPlace;
use std::alloc::Global;
use std::test::Fail;

// A total, ranges of it by their ends, and the rows. An empty range is ignored wherever it stands; neighbours join.
const GOOD: [(usize, &[[usize; 2]], &[i32]); 6] = [
    (10, &[[1, 3], [5, 9]], &[-1, 2, -2, 4, -1]),
    (6, &[[9, 9], [1, 3], [0, 0], [3, 4], [7, 7]], &[-1, 3, -2]),
    (4, &[], &[-4]),
    (4, &[[0, 4]], &[4]),
    (0, &[[3, 3]], &[]),
    (
        1_073_741_824,
        &[[1_073_741_823, 1_073_741_824]],
        &[-1_073_741_823, 1],
    ),
];

// The same at fault, with number and place. The total is looked at first, then the ranges, then the place, which holds a run.
const FAULTS: [(usize, &[[usize; 2]], u8, usize); 8] = [
    (1_073_741_825, &[[5, 4]], 1, 0),
    (usize::MAX, &[], 1, 0),
    (6, &[[3, 1]], 3, 0),
    (6, &[[1, 3], [2, 4]], 3, 1),
    (6, &[[0, 0], [5, 7]], 3, 1),
    (6, &[[1, 3], [9, 9], [2, 2], [2, 3]], 3, 3),
    (6, &[[usize::MAX, 0]], 3, 0),
    (6, &[[1, 3]], 12, 3),
];

fn ranges(heap: Global, ends: &[[usize; 2]]) -> Result<Vec<RowRange>, Fail> {
    let mut ranges = Vec::new(heap);
    for [start, end] in ends {
        ranges.push(RowRange {
            start: *start,
            end: *end,
        })?;
    }
    Ok(ranges)
}

#[test]
fn ranges_select_their_rows(rt: HostRuntime) -> Result<(), Fail> {
    let heap = rt.alloc();
    let mut slots = [OLD; 5];
    for (total, ends, wanted) in GOOD {
        let mut out = RunPlace::new(&mut slots);
        from_consecutive_ranges(ranges(heap, ends)?.as_slice(), total, &mut out)?;
        want(are(out.list().runs(), wanted), wanted)?;
    }
    let mut one = [OLD; 1];
    let mut out = RunPlace::new(&mut one);
    for (total, ends, number, place) in FAULTS {
        let told = from_consecutive_ranges(ranges(heap, ends)?.as_slice(), total, &mut out);
        assert!(rt;
            refused(told, number, place, Layer::Selection),
            "{number} at {place}"
        );
    }
    assert!(rt; one[0] == OLD);
    Ok(())
}
