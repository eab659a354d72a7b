// Selections that own their memory.
use crate::told::{refused, told};
use refusals::refusal::Layer;
use std::test::Fail;
use stored::bytes::StoredMask;
use stored::held::Stored;
use stored::operation::{Operate, Operation};
use stored::perform::perform;
use stored::room::Room;

// Rows 1, 3 and 4 of six, from bit 1 on.
#[test]
fn a_mask_is_kept_with_its_bytes(rt: HostRuntime) -> Result<(), Fail> {
    let heap = rt.alloc();
    let mask = StoredMask::new(vec![in heap; 0x34u8; 1]?, 1, 6)?;
    let copy = mask.copy(heap)?;
    assert!(rt; copy.bytes() == mask.bytes());
    assert_eq!(rt; copy.mask().len(), 6);
    assert_eq!(rt; copy.mask().last_set_bit(), Some(4));
    assert_eq!(rt;
        told(StoredMask::new(vec![in heap; 0u8; 1]?, 1, 8)),
        refused(2, 7, Layer::Bits)
    );
    Ok(())
}

#[test]
fn a_result_has_the_room_that_it_needs(rt: HostRuntime) -> Result<(), Fail> {
    let heap = rt.alloc();
    let kept = Stored::Mask(StoredMask::new(vec![in heap; 0x34u8; 1]?, 1, 6)?);
    let limit = Operation::Limit(kept.selection(), 2);
    assert!(rt; limit.is_mask());
    let Ok(runs) = perform(heap, limit, Room::Runs(usize::MAX)) else {
        return Err(Fail::new("no result"));
    };
    assert!(rt; !runs.is_mask());
    assert_eq!(rt; runs.selection().row_count(), 2);
    assert_eq!(rt; runs.selection().total_row_count(), 4);
    assert!(rt; perform(heap, limit, Room::Runs(3)).is_err());
    Ok(())
}
