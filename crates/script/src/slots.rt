// The sixteen slots of a script.
ghost use Rattle.std.specs.Prelude.{◌≡◌, Some, slice_set};

use crate::no::No;
use selections::form::RowSelection;
use std::alloc::{AllocError, Global};
use stored::held::Stored;

const SLOTS: usize = 16;

// A selection, and whether `trim` made it. Nothing asks for that until something is opened.
#[derive(Drop)]
pub(crate) struct Slot {
    pub(crate) stored: Stored,
    pub(crate) trimmed: bool,
}

#[derive(Drop)]
pub(crate) struct Slots {
    pub(crate) slots: Vec<Option<Slot>>,
}

impl Slots {
    // All of them empty.
    pub(crate) fn new(heap: Global) -> Result<Slots, AllocError> {
        let mut slots = Vec::new(heap);
        for _ in 0..SLOTS {
            slots.push(None)?;
        }
        Ok(Slots { slots })
    }

    // What a slot holds. To ask an empty one is misuse.
    pub(crate) fn get(&self, slot: usize) -> Result<&Stored, No> {
        match self.slots.get(slot) {
            Some(Some(slot)) => Ok(&slot.stored),
            _ => Err(No::Misuse),
        }
    }

    // Its rows.
    pub(crate) fn selection(&self, slot: usize) -> Result<RowSelection<'_>, No> {
        Ok(self.get(slot)?.selection())
    }

    // A selection into a slot, which forgets what it held.
    pub(crate) fn put(&mut self, slot: usize, stored: Stored, trimmed: bool)
        ensures { self.new.slots.items ≡ slice_set self.old.slots.items slot (Some (record { stored = stored; trimmed = trimmed })) }
    {
        if let Some(held) = self.slots.get_mut(slot) {
            *held = Some(Slot { stored, trimmed });
        }
    }

    pub(crate) fn reset(&mut self) {
        for held in self.slots.iter_mut() {
            *held = None;
        }
    }
}
