// The run of a script: what its slots hold, and where its answers go.
ghost use Rattle.script.specs.Kept.{Kept};

use crate::args::Args;
use crate::no::No;
use crate::slots::Slots;
use scripts::parse::parse;
use std::alloc::{AllocError, Global};
use std::io;
use std::io::Write;

#[derive(Drop)]
pub(crate) struct Session<W> {
    pub(crate) heap: Global,
    pub(crate) slots: Slots,
    pub(crate) out: W,
}

impl<W: Write + Drop> Session<W> {
    // With empty slots.
    pub(crate) fn new(heap: Global, out: W) -> Result<Session<W>, AllocError> {
        Ok(Session {
            heap,
            slots: Slots::new(heap)?,
            out,
        })
    }

    // Answers a line; an empty one or a comment has no answer.
    pub(crate) fn answer(&mut self, line: &[u8]) -> Result<(), No> {
        match self.carry_out(line) {
            Err(no @ (No::Misuse | No::Refused(_))) => Ok(writeln!(self.out, "{no}")?),
            answered => answered,
        }
    }

    fn carry_out(&mut self, line: &[u8]) -> Result<(), No>
        ensures { Kept result self.old.slots self.new.slots }
    {
        match parse(self.heap, line)? {
            Some(command) => self.obey(command.verb, Args::of(&command)),
            None => Ok(()),
        }
    }

    pub(crate) fn flush(&mut self) -> io::Result<()> {
        self.out.flush()
    }
}
