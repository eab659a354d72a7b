// Commands that write slots.
ghost use Rattle.std.specs.Prelude.{◌≡◌, true, false, IfOk};
ghost use Rattle.script.specs.Kept.{Kept, WriteFailed, Written, WrittenBoth};

use crate::args::Args;
use crate::no::No;
use crate::session::Session;
use scripts::command::Place;
use selections::form::RowSelection;
use std::alloc::Global;
use std::io::Write;
use stored::held::Stored;
use stored::operation::{Operate, Operation};
use stored::perform::perform;
use stored::room::Room;
use stored::split::split_stored;

// The room that a place gives; the natural one has the form asked for, and no bound.
fn room(place: Place, is_mask: bool) -> Room {
    match place {
        Place::Runs(most) => Room::Runs(most),
        Place::Mask(most) => Room::Mask(most),
        Place::Natural if is_mask => Room::Mask(usize::MAX),
        Place::Natural => Room::Runs(usize::MAX),
    }
}

fn result(heap: Global, operation: Operation<'_>, place: Place) -> Result<Stored, No> {
    Ok(perform(heap, operation, room(place, operation.is_mask()))?)
}

impl<W: Write + Drop> Session<W> {
    fn done(&mut self) -> Result<(), No>
        ensures slots { self.new.slots ≡ self.old.slots }
        ensures failed { WriteFailed result }
    {
        Ok(self.out.write_all(b"ok\n")?)
    }

    // What was made, into the slot that is named first, which is flagged as trimmed or not.
    fn write(&mut self, args: Args<'_>, made: Stored, trimmed: bool) -> Result<(), No>
        ensures kept { Kept result self.old.slots self.new.slots }
        ensures flag { IfOk result (λ _. Written trimmed self.old.slots self.new.slots) }
    {
        self.slots.put(args.slot(0)?, made, trimmed);
        self.done()
    }

    pub(crate) fn put(&mut self, args: Args<'_>, made: Stored) -> Result<(), No>
        ensures kept { Kept result self.old.slots self.new.slots }
        ensures flag { IfOk result (λ _. Written false self.old.slots self.new.slots) }
    {
        self.write(args, made, false)
    }

    pub(crate) fn reset(&mut self) -> Result<(), No>
        ensures { Kept result self.old.slots self.new.slots }
    {
        self.slots.reset();
        self.done()
    }

    // The same rows in the same form.
    pub(crate) fn copy(&mut self, args: Args<'_>) -> Result<(), No>
        ensures kept { Kept result self.old.slots self.new.slots }
        ensures flag { IfOk result (λ _. Written false self.old.slots self.new.slots) }
    {
        let made = self.slots.get(args.slot(1)?)?.copy(self.heap)?;
        self.put(args, made)
    }

    // The same rows in the form of the place.
    pub(crate) fn convert(&mut self, args: Args<'_>) -> Result<(), No>
        ensures kept { Kept result self.old.slots self.new.slots }
        ensures flag { IfOk result (λ _. Written false self.old.slots self.new.slots) }
    {
        let of = self.slots.selection(args.slot(1)?)?;
        let made = result(self.heap, Operation::Convert(of), args.place(2)?)?;
        self.put(args, made)
    }

    // Without the skipped rows at its end, which flags the slot.
    pub(crate) fn trim(&mut self, args: Args<'_>) -> Result<(), No>
        ensures kept { Kept result self.old.slots self.new.slots }
        ensures flag { IfOk result (λ _. Written true self.old.slots self.new.slots) }
    {
        let of = self.slots.selection(args.slot(0)?)?;
        let made = result(self.heap, Operation::Trim(of), args.place(1)?)?;
        self.write(args, made, true)
    }

    // A slot's rows, cut short by a number.
    pub(crate) fn cut<F: for<'s> FnOnce(RowSelection<'s>, usize) -> Operation<'s>>(
        &mut self,
        args: Args<'_>,
        operation: F,
    ) -> Result<(), No>
        requires { F.IsAlwaysCallable operation }
        ensures kept { Kept result self.old.slots self.new.slots }
        ensures flag { IfOk result (λ _. Written false self.old.slots self.new.slots) }
    {
        let of = self.slots.selection(args.slot(0)?)?;
        let made = result(self.heap, operation(of, args.number(1)?), args.place(2)?)?;
        self.put(args, made)
    }

    // Two selections made into one.
    pub(crate) fn two<F: for<'s> FnOnce(RowSelection<'s>, RowSelection<'s>) -> Operation<'s>>(
        &mut self,
        args: Args<'_>,
        operation: F,
    ) -> Result<(), No>
        requires { F.IsAlwaysCallable operation }
        ensures kept { Kept result self.old.slots self.new.slots }
        ensures flag { IfOk result (λ _. Written false self.old.slots self.new.slots) }
    {
        let first = self.slots.selection(args.slot(1)?)?;
        let second = self.slots.selection(args.slot(2)?)?;
        let made = result(self.heap, operation(first, second), args.place(3)?)?;
        self.put(args, made)
    }

    // The first rows into one slot, and the rest into the slot they came from.
    pub(crate) fn split(&mut self, args: Args<'_>) -> Result<(), No>
        ensures kept { Kept result self.old.slots self.new.slots }
        ensures flag { IfOk result (λ _. WrittenBoth self.old.slots self.new.slots) }
    {
        let front = args.slot(0)?;
        let rest = args.slot(1)?;
        if front == rest {
            return Err(No::Misuse);
        }
        let of = self.slots.get(rest)?;
        let (first, second) = split_stored(
            self.heap,
            of.selection(),
            args.number(2)?,
            room(args.place(3)?, of.is_mask()),
            room(args.place(4)?, of.is_mask()),
        )?;
        self.slots.put(front, first, false);
        self.slots.put(rest, second, false);
        self.done()
    }
}
