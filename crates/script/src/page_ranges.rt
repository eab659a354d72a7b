// Commands that tell the pages a selection needs.
ghost use Rattle.std.specs.Prelude.{◌≡◌};

use crate::args::Args;
use crate::no::No;
use crate::session::Session;
use pages::page::ByteRange;
use rows::range::{RowRange, Span};
use std::fmt::Display;
use std::io;
use std::io::Write;

// The first n of the ranges.
fn write_ranges<W: Write, T: Display>(out: &mut W, ranges: &[Span<T>], n: usize) -> io::Result<()> {
    out.write_all(b"ranges")?;
    for range in ranges.iter().take(n) {
        write!(out, " {} {}", range.start, range.end)?;
    }
    out.write_all(b"\n")
}

impl<W: Write + Drop> Session<W> {
    // The byte ranges of the pages that hold a selected row; there are no more than pages.
    pub(crate) fn tell_scan(&mut self, args: Args<'_>) -> Result<(), No>
        ensures { self.new.slots ≡ self.old.slots }
    {
        let selection = self.slots.selection(args.slot(0)?)?;
        let pages = args.pages()?;
        let most = pages.len().min(args.number(1)?);
        let mut place = vec![in self.heap; ByteRange { start: 0, end: 0 }; most]?;
        let n = selection.scan_ranges(pages, place.as_mut_slice())?;
        Ok(write_ranges(&mut self.out, place.as_slice(), n)?)
    }

    // The rows of those pages.
    pub(crate) fn tell_page_rows(&mut self, args: Args<'_>) -> Result<(), No>
        ensures { self.new.slots ≡ self.old.slots }
    {
        let selection = self.slots.selection(args.slot(0)?)?;
        let pages = args.pages()?;
        let most = pages.len().min(args.number(1)?);
        let total = args.number(2)?;
        let mut place = vec![in self.heap; RowRange { start: 0, end: 0 }; most]?;
        let n = selection.row_ranges_for_selected_pages(pages, total, place.as_mut_slice())?;
        Ok(write_ranges(&mut self.out, place.as_slice(), n)?)
    }
}
