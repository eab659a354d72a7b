// The arguments of a command, by their places. The parser has seen to their kinds; another kind would be misuse.
use crate::no::No;
use pages::page::PageLocation;
use rows::range::RowRange;
use rows::selector::RowSelector;
use scripts::command::{Arg, Command, Place, Tail};

#[derive(Clone, Copy)]
pub(crate) struct Args<'c> {
    command: &'c Command,
}

impl<'c> Args<'c> {
    pub(crate) fn of(command: &'c Command) -> Args<'c> {
        Args { command }
    }

    pub(crate) fn slot(self, i: usize) -> Result<usize, No> {
        match self.command.head.get(i) {
            Some(Arg::Slot(n)) => Ok(*n),
            _ => Err(No::Misuse),
        }
    }

    pub(crate) fn number(self, i: usize) -> Result<usize, No> {
        match self.command.head.get(i) {
            Some(Arg::Number(n)) => Ok(*n),
            _ => Err(No::Misuse),
        }
    }

    pub(crate) fn place(self, i: usize) -> Result<Place, No> {
        match self.command.head.get(i) {
            Some(Arg::Place(place)) => Ok(*place),
            _ => Err(No::Misuse),
        }
    }

    pub(crate) fn bytes(self) -> Result<&'c [u8], No> {
        match &self.command.tail {
            Tail::Bytes(bytes) => Ok(bytes.as_slice()),
            _ => Err(No::Misuse),
        }
    }

    pub(crate) fn runs(self) -> Result<&'c [RowSelector], No> {
        match &self.command.tail {
            Tail::Runs(runs) => Ok(runs.as_slice()),
            _ => Err(No::Misuse),
        }
    }

    pub(crate) fn ranges(self) -> Result<&'c [RowRange], No> {
        match &self.command.tail {
            Tail::Ranges(ranges) => Ok(ranges.as_slice()),
            _ => Err(No::Misuse),
        }
    }

    pub(crate) fn pages(self) -> Result<&'c [PageLocation], No> {
        match &self.command.tail {
            Tail::Pages(pages) => Ok(pages.as_slice()),
            _ => Err(No::Misuse),
        }
    }
}
