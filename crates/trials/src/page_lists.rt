// Page lists, byte ranges and row ranges.
use crate::told::{refused, told};
use bits::mask::Mask;
use masks::iter::MaskRunIter;
use pages::page::{ByteRange, PageLocation, RowRange};
use pages::scan::{row_ranges_for_selected_pages, scan_ranges};
use refusals::fault::SelectionFault;
use refusals::refusal::{Layer, Refusal};
use std::test::Fail;

fn page(offset: i64, compressed_page_size: i32, first_row_index: i64) -> PageLocation {
    PageLocation {
        offset,
        compressed_page_size,
        first_row_index,
    }
}

fn three_pages() -> [PageLocation; 3] {
    [page(100, 50, 0), page(150, 50, 4), page(200, 30, 6)]
}

// The pages scanned by no row at all, into no place.
fn scanned(pages: &[PageLocation]) -> Result<(), Refusal> {
    told(Mask::new(&[], 0, 0).and_then(|none| scan_ranges(MaskRunIter::new(none), pages, &mut [])))
}

// -4 +2 ends on a page's border; -4 +3 passes it.
#[test]
fn a_run_that_ends_on_a_border_fetches_no_next_page(rt: HostRuntime) -> Result<(), Fail> {
    let border = MaskRunIter::new(Mask::new(&[0x30], 0, 6)?);
    let past = MaskRunIter::new(Mask::new(&[0x70], 0, 7)?);
    let old = ByteRange { start: 1, end: 2 };
    let mut place = [old; 3];
    assert_eq!(rt; scan_ranges(border, &three_pages(), &mut place)?, 1);
    assert_eq!(rt;
        (place[0], place[1]),
        (
            ByteRange {
                start: 150,
                end: 200,
            },
            old,
        )
    );
    assert_eq!(rt; scan_ranges(past, &three_pages(), &mut place)?, 2);
    assert_eq!(rt;
        (place[1], place[2]),
        (
            ByteRange {
                start: 200,
                end: 230,
            },
            old,
        )
    );
    let mut one = [old; 1];
    assert_eq!(rt;
        told(scan_ranges(past, &three_pages(), &mut one)),
        refused(12, 2, Layer::Selection)
    );
    assert_eq!(rt; one[0], old);
    Ok(())
}

#[test]
fn page_lists_are_refused_at_the_first_fault(rt: HostRuntime) {
    for (pages, wanted) in [
        (&three_pages()[..], Ok(())),
        (&[], refused(6, 0, Layer::Selection)),
        (&[page(0, 5, 1)], refused(6, 0, Layer::Selection)),
        (&[page(-1, 5, 0)], refused(6, 0, Layer::Selection)),
        (
            &[page(0, 5, 0), page(0, 5, 4)],
            refused(6, 1, Layer::Selection),
        ),
        (
            &[page(0, 5, 0), page(5, 5, 0)],
            refused(6, 1, Layer::Selection),
        ),
        (
            &[page(0, 5, 0), page(5, -5, 4)],
            refused(6, 1, Layer::Selection),
        ),
        (&[page(0, 5, 0), page(5, 5, 1_073_741_824)], Ok(())),
        (
            &[page(0, 5, 0), page(5, 5, 4), page(9, 5, 1_073_741_825)],
            refused(6, 2, Layer::Selection),
        ),
    ] {
        assert_eq!(rt; scanned(pages), wanted, "{pages:?}");
    }
}

// The row ranges of the three pages for -4 +3, with a total.
fn rows_with(total: usize, place: &mut [RowRange]) -> Result<usize, SelectionFault> {
    let past = Mask::new(&[0x70], 0, 7)?;
    row_ranges_for_selected_pages(MaskRunIter::new(past), &three_pages(), total, place)
}

#[test]
fn the_last_page_ends_at_the_total(rt: HostRuntime) -> Result<(), Fail> {
    let old = RowRange { start: 0, end: 0 };
    let mut place = [old; 2];
    assert_eq!(rt; rows_with(9, &mut place)?, 2);
    assert_eq!(rt;
        (place[0], place[1]),
        (RowRange { start: 4, end: 6 }, RowRange { start: 6, end: 9 })
    );
    assert_eq!(rt;
        told(rows_with(9, &mut [old; 1])),
        refused(12, 2, Layer::Selection)
    );
    assert_eq!(rt; told(rows_with(7, &mut place)), Ok(()));
    assert_eq!(rt;
        told(rows_with(6, &mut place)),
        refused(7, 6, Layer::Selection)
    );
    assert_eq!(rt; told(rows_with(1_073_741_824, &mut place)), Ok(()));
    assert_eq!(rt;
        told(rows_with(1_073_741_825, &mut place)),
        refused(1, 0, Layer::Selection)
    );
    assert_eq!(rt;
        told(rows_with(usize::MAX, &mut place)),
        refused(1, 0, Layer::Selection)
    );
    Ok(())
}
