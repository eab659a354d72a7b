// The pages of a list that hold a selected row, one by one.
ghost use Rattle.std.specs.Prelude.{◌≡◌, length};
ghost use Rattle.std.specs.Iterator.{YieldsFirst, at_most};
ghost use Rattle.pages.specs.Pages.{wanted_pages};
ghost use Rattle.pages.specs.Walks.{pages_left};

use crate::list::PageList;
use crate::page::PageLocation;
use crate::span::PageSpan;
use runs::held::Held;
use runs::source::RunSource;

// The pages still to come, and the rows from the first one's first row on.
#[derive(Drop)]
pub(crate) struct Walk<'a, S> {
    pages: &'a [PageLocation],
    rows: Held<S>,
}

impl<'a> PageList<'a> {
    // A walk from the first page and the first row on.
    pub(crate) fn walk<S: RunSource>(&self, source: S) -> Walk<'a, S>
        ensures { pages_left S.rows result ≡ wanted_pages self.now.pages.now (S.rows source) }
    {
        Walk {
            pages: self.pages,
            rows: Held::new(source),
        }
    }
}

impl<'a, S: RunSource> Iterator for Walk<'a, S> {
    type Item = PageSpan;

    ghost next_gives = { YieldsFirst (pages_left S.rows) };

    ghost remaining = { λ s. at_most (length s.pages.now) };

    fn next(&mut self) -> Option<PageSpan> {
        while let [page, rest @ ..] = self.pages {
            let span = PageSpan {
                page: *page,
                next: rest.first().copied(),
            };
            self.pages = rest;
            if span.holds(&mut self.rows) {
                return Some(span);
            }
        }
        None
    }
}
