// The rows of a page passed by, and whether one of them was selected.
ghost use Rattle.std.specs.Prelude.{◌≡◌};
ghost use Rattle.rows.specs.Rows.{any_row};
ghost use Rattle.runs.specs.HeldRows.{held_rows};
ghost use Rattle.pages.specs.Pages.{own, Left};

use crate::span::PageSpan;
use runs::held::Held;
use runs::source::RunSource;

// Stops at the first selected run, since no page follows that would want the rows after it.
fn any_left<S: RunSource>(rows: &mut Held<S>) -> bool
    ensures { result ≡ any_row (held_rows S.rows rows.old) }
{
    while let Some(run) = rows.peek() {
        if !run.skip {
            return true;
        }
        rows.take(run.row_count);
    }
    false
}

impl PageSpan {
    // Whether the page holds a selected row, of the rows from its first on; its own are removed.
    pub(crate) fn holds<S: RunSource>(self, rows: &mut Held<S>) -> bool
        ensures any { result ≡ any_row (own self.page self.next (held_rows S.rows rows.old)) }
        ensures rest { Left self.page self.next (held_rows S.rows rows.old) (held_rows S.rows rows.new) }
    {
        match self.next {
            None => any_left(rows),
            // First rows rise, so that nothing is cut off.
            Some(q) => rows.pass(q.first_row().saturating_sub(self.page.first_row())),
        }
    }
}
