// What is told of the pages that hold a selected row: counted where the place may be too small for it, then written.
ghost use Rattle.std.specs.Prelude.{◌≡◌, ◌<◌, ◌≤◌, map, length, IfOk, IfErr};
ghost use Rattle.refusals.specs.Refusals.{no, selection, told_selection, verdict};
ghost use Rattle.pages.specs.Items.{stored, Stands, Tells};
ghost use Rattle.pages.specs.Pages.{wanted_pages};

use crate::list::PageList;
use crate::span::PageSpan;
use refusals::fault::SelectionFault;
use runs::place::Place;
use runs::source::RunSource;

impl<'a> PageList<'a> {
    // Refuses a place of too few slots for the pages that hold a selected row. These are counted only where there are more pages than slots.
    fn check_room<S: RunSource>(&self, source: S, slots: usize) -> Result<(), SelectionFault>
        ensures few { IfOk result (λ _. length (wanted_pages self.now.pages.now (S.rows source)) ≤ slots) }
        ensures many { IfErr result (λ e. (slots < length (wanted_pages self.now.pages.now (S.rows source))) × (told_selection e ≡ no 12 (length (wanted_pages self.now.pages.now (S.rows source))) selection)) }
    {
        if self.pages.len() <= slots {
            return Ok(());
        }
        let n = self.walk(source).count();
        if slots < n {
            return Err(SelectionFault::PlaceTooSmall(n));
        }
        Ok(())
    }

    // Writes what the closure tells of each of these pages at the start of the place, or refuses it as too small and leaves it.
    pub(crate) fn store<S: RunSource, T: Copy, F: Fn(PageSpan) -> T>(
        &self,
        source: S,
        tell: F,
        place: &mut [T],
    ) -> Result<usize, SelectionFault>
        requires { F.IsAlwaysCallable tell }
        ensures verdict { (h : PageSpan → T) → Tells (F.post tell) h → verdict result ≡ stored (length place.old) (map h (wanted_pages self.now.pages.now (S.rows source))) }
        ensures written { (h : PageSpan → T) → Tells (F.post tell) h → Stands (map h (wanted_pages self.now.pages.now (S.rows source))) result place.old place.new }
    {
        self.check_room(source, place.len())?;
        let mut out = Place::new(place);
        for page in self.walk(source) {
            let Ok(()) = out.push(tell(page)) else {
                unreachable()
            };
        }
        Ok(out.items().len())
    }
}
