// Commands that tell something of a selection.
ghost use Rattle.std.specs.Prelude.{◌≡◌};

use crate::args::Args;
use crate::digest::{digest, write_runs};
use crate::no::No;
use crate::session::Session;
use std::alloc::Global;
use std::io::Write;
use stored::operation::Operation;
use stored::perform::into_mask;

const DIGITS: [u8; 16] = *b"0123456789abcdef";

// Bytes as two digits each, and none as `-`, with the end of the line. A long line goes out whole where it is written at once, and its digits are looked up, since formatting them takes many times as long.
fn bytes_line(heap: Global, bytes: &[u8]) -> Result<Vec<u8>, No> {
    let mut text = Vec::with_capacity(heap, bytes.len().saturating_mul(2).saturating_add(2))?;
    for byte in bytes {
        text.push(DIGITS[*byte as usize / 16])?;
        text.push(DIGITS[*byte as usize % 16])?;
    }
    if bytes.is_empty() {
        text.push(b'-')?;
    }
    text.push(b'\n')?;
    Ok(text)
}

impl<W: Write + Drop> Session<W> {
    pub(crate) fn tell_rows(&mut self, args: Args<'_>) -> Result<(), No>
        ensures { self.new.slots ≡ self.old.slots }
    {
        let selection = self.slots.selection(args.slot(0)?)?;
        self.out.write_all(b"rows")?;
        write_runs(&mut self.out, selection)?;
        Ok(self.out.write_all(b"\n")?)
    }

    // The rows as a mask from bit 0 on.
    pub(crate) fn tell_bytes(&mut self, args: Args<'_>) -> Result<(), No>
        ensures { self.new.slots ≡ self.old.slots }
    {
        let selection = self.slots.selection(args.slot(0)?)?;
        let mask = into_mask(self.heap, Operation::Convert(selection), args.number(1)?)?;
        let text = bytes_line(self.heap, mask.bytes())?;
        self.out.write_all(b"bytes ")?;
        Ok(self.out.write_all(text.as_slice())?)
    }

    pub(crate) fn tell_count(&mut self, args: Args<'_>) -> Result<(), No>
        ensures { self.new.slots ≡ self.old.slots }
    {
        let selection = self.slots.selection(args.slot(0)?)?;
        let all = selection.total_row_count();
        let selected = selection.row_count();
        let any = u8::from(selection.selects_any());
        Ok(writeln!(self.out, "count {selected} {all} {any}")?)
    }

    pub(crate) fn tell_sum(&mut self, args: Args<'_>) -> Result<(), No>
        ensures { self.new.slots ≡ self.old.slots }
    {
        let selection = self.slots.selection(args.slot(0)?)?;
        let all = selection.total_row_count();
        let selected = selection.row_count();
        let (runs, hash) = digest(selection);
        Ok(writeln!(self.out, "sum {all} {selected} {runs} {hash}")?)
    }

    pub(crate) fn tell_equal(&mut self, args: Args<'_>) -> Result<(), No>
        ensures { self.new.slots ≡ self.old.slots }
    {
        let first = self.slots.selection(args.slot(0)?)?;
        let second = self.slots.selection(args.slot(1)?)?;
        let equal = u8::from(first.equals(&second));
        Ok(writeln!(self.out, "eq {equal}")?)
    }

    pub(crate) fn tell_strategy(&mut self, args: Args<'_>) -> Result<(), No>
        ensures { self.new.slots ≡ self.old.slots }
    {
        let selection = self.slots.selection(args.slot(0)?)?;
        let strategy = selection.auto_selection_strategy(args.number(1)?);
        Ok(writeln!(self.out, "strategy {strategy}")?)
    }

    // The place behind the n-th selected row of a mask.
    pub(crate) fn tell_nth(&mut self, args: Args<'_>) -> Result<(), No>
        ensures { self.new.slots ≡ self.old.slots }
    {
        let selection = self.slots.selection(args.slot(0)?)?;
        let mask = selection.mask().ok_or(No::Misuse)?;
        let position = mask.find_nth_set_bit_position(args.number(1)?);
        Ok(writeln!(self.out, "nth {position}")?)
    }
}
