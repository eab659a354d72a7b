// Masks: Arrow's bit order, refusals at their edges, and the searches.
use crate::told::{refused, told};
use bits::mask::Mask;
use refusals::refusal::Layer;
use rows::range::RowRange;
use std::test::Fail;

// -2 +3 -1 +2 as a mask is the byte dc.
#[test]
fn rows_are_bits_from_the_least(rt: HostRuntime) -> Result<(), Fail> {
    let mask = Mask::new(&[0xdc], 0, 8)?;
    assert_eq!(rt; mask.len(), 8);
    assert_eq!(rt;
        (mask.value(1), mask.value(2), mask.value(8)),
        (Some(false), Some(true), None)
    );
    assert_eq!(rt; mask.count_set_bits(), 5);
    assert_eq!(rt;
        (
            mask.next_change(0),
            mask.next_change(2),
            mask.next_change(6),
            mask.next_change(9),
        ),
        (2, 5, 8, 8)
    );
    assert_eq!(rt; mask.last_set_bit(), Some(7));
    assert_eq!(rt; mask.slice(3, 3).count_set_bits(), 2);
    assert_eq!(rt; mask.slice(7, usize::MAX).len(), 1);
    Ok(())
}

#[test]
fn the_nth_selected_row_is_found(rt: HostRuntime) -> Result<(), Fail> {
    let mask = Mask::new(&[0xdc], 0, 8)?;
    assert_eq!(rt;
        (
            mask.find_nth_set_bit_position(0),
            mask.find_nth_set_bit_position(1),
        ),
        (0, 3)
    );
    assert_eq!(rt;
        (
            mask.find_nth_set_bit_position(5),
            mask.find_nth_set_bit_position(6),
        ),
        (8, 8)
    );
    let long = Mask::new(&[0xaa; 25], 3, 190)?;
    assert_eq!(rt; long.count_set_bits(), 95);
    assert_eq!(rt; long.find_nth_set_bit_position(95), 189);
    assert_eq!(rt; long.find_nth_set_bit_position(usize::MAX), 190);
    Ok(())
}

#[test]
fn an_offset_only_moves_the_rows(rt: HostRuntime) -> Result<(), Fail> {
    let mask = Mask::new(&[0xb8, 0x01], 1, 8)?;
    let spans: Vec<RowRange> = mask.set_slices().collect(rt.alloc())?;
    assert_eq!(rt;
        spans.as_slice(),
        &[RowRange { start: 2, end: 5 }, RowRange { start: 6, end: 8 }][..]
    );
    let rows: Vec<usize> = mask.set_indices().collect(rt.alloc())?;
    assert_eq!(rt; rows.as_slice(), &[2, 3, 4, 6, 7][..]);
    Ok(())
}

#[test]
fn spare_bits_are_no_rows(rt: HostRuntime) -> Result<(), Fail> {
    let mask = Mask::new(&[0xff], 0, 3)?;
    assert_eq!(rt;
        (mask.len(), mask.count_set_bits(), mask.last_set_bit()),
        (3, 3, Some(2))
    );
    let none = Mask::new(&[0xff], 8, 0)?;
    assert_eq!(rt;
        (none.len(), none.count_set_bits(), none.last_set_bit()),
        (0, 0, None)
    );
    Ok(())
}

#[test]
fn masks_past_their_bytes_are_refused(rt: HostRuntime) {
    for (bytes, offset, len, wanted) in [
        (&[0][..], 3, 5, Ok(())),
        (&[0], 3, 6, refused(2, 5, Layer::Bits)),
        (&[0], 9, 0, refused(2, 0, Layer::Bits)),
        (&[], 0, 0, Ok(())),
        (&[], usize::MAX, 1, refused(2, 0, Layer::Bits)),
        (&[], 0, 1_073_741_824, refused(2, 0, Layer::Bits)),
        (&[], 0, 1_073_741_825, refused(1, 0, Layer::Selection)),
        (&[], 0, usize::MAX, refused(1, 0, Layer::Selection)),
    ] {
        assert_eq!(rt;
            told(Mask::check(bytes, offset, len)),
            wanted,
            "{len} from {offset}"
        );
        assert_eq!(rt;
            told(Mask::new(bytes, offset, len)),
            wanted,
            "{len} from {offset}"
        );
    }
}
