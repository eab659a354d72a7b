// The states of a selection before it is read.
use crate::given::{S, in_each, want};
use runs::source::CountedSource;
use selections::form::RowSelection;
use selections::states::Selection;
use std::test::Fail;

// Whether it has as many rows as it should, before and after it is trimmed.
fn goes_through(s: RowSelection, all: usize, left: usize) -> bool {
    let untrimmed = Selection::new(s);
    let before = untrimmed.source().rows_left();
    let trimmed = untrimmed.trim();
    let after = trimmed.source().rows_left();
    before == all && after == left && trimmed.loosen().source().rows_left() == left
}

#[test]
fn a_selection_goes_from_state_to_state(rt: HostRuntime) -> Result<(), Fail> {
    for (rows, all, left) in [(&[2, -3][..], 5, 2), (&[-4], 4, 0), (&[], 0, 0), (S, 8, 8)] {
        want(
            in_each(rt.alloc(), rows, |s| goes_through(s, all, left))?,
            rows,
        )?;
    }
    Ok(())
}
