// A page list that is accepted.
ghost use Rattle.std.specs.Prelude.{◌≡◌, true, false, None, IfOk, IfErr};
ghost use Rattle.refusals.specs.Refusals.{no, selection, told_selection};
ghost use Rattle.pages.specs.Pages.{accepted, in_order, last_first};

use crate::page::PageLocation;
use refusals::fault::SelectionFault;

#[derive(Clone, Copy)]
pub(crate) struct PageList<'a> {
    pub(crate) pages: &'a [PageLocation],
    ghost checked: { accepted pages.now ≡ true },
}

impl<'a> PageList<'a> {
    // Refused at the first page at fault, at 0 where there is no page.
    pub(crate) fn new(pages: &'a [PageLocation]) -> Result<PageList<'a>, SelectionFault>
        ensures list { IfOk result (λ l. l.pages.now ≡ pages.now) }
        ensures fault { IfErr result (λ e. (accepted pages.now ≡ false) × (told_selection e ≡ no 6 (in_order None pages.now) selection)) }
    {
        if pages.is_empty() {
            return Err(SelectionFault::BadPage(0));
        }
        let mut last = None;
        for (i, page) in pages.iter().enumerate() {
            if !page.fits(last) {
                return Err(SelectionFault::BadPage(i));
            }
            last = Some(*page);
        }
        Ok(PageList { pages })
    }

    // The last page's first row.
    pub(crate) fn last_first_row(&self) -> usize
        ensures { result ≡ last_first self.now.pages.now }
    {
        match self.pages {
            [.., last] => last.first_row(),
            [] => 0,
        }
    }
}
