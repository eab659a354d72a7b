// What can be done with a place.
ghost use Rattle.std.specs.Prelude.{◌≡◌, [], length};
ghost use Rattle.runs.specs.Places.{held, last_of, Untouched, Pushed, Replaced};

use crate::place::{Full, Place};

impl<'a, T: Copy> Place<'a, T> {
    // An empty list over the slots.
    pub fn new(slots: &'a mut [T]) -> Place<'a, T>
        ensures same { (result.slots.ghost_name ≡ slots.entry.ghost_name) × (result.slots.now ≡ slots.old) }
        ensures empty { result.len ≡ 0 }
    {
        Place { slots, len: 0 }
    }

    // The items, in the order in which they came.
    pub fn items(&self) -> &[T]
        ensures { result.now ≡ held self.now }
    {
        &self.slots[..self.len]
    }

    // How many items there is memory for.
    pub fn capacity(&self) -> usize
        ensures { result ≡ length self.now.slots.now }
    {
        self.slots.len()
    }

    // The last item.
    pub fn last(&self) -> Option<T>
        ensures { result ≡ last_of (held self.now) }
    {
        self.items().last().copied()
    }

    // One item more, where the memory is not full.
    pub fn push(&mut self, x: T) -> Result<(), Full>
        ensures pushed { Pushed self.old x result self.new }
        ensures rest { Untouched self.old self.new }
    {
        let at = self.len;
        if at == self.slots.len() {
            return Err(Full);
        }
        self.slots[at] = x;
        self.len = at + 1;
        Ok(())
    }

    // Another item in the last one's place, which is given back; none where there is none.
    pub fn replace_last(&mut self, x: T) -> Option<T>
        ensures replaced { Replaced self.old x result self.new }
        ensures rest { Untouched self.old self.new }
    {
        let last = self.last()?;
        self.slots[self.len - 1] = x;
        Some(last)
    }

    // No items any more.
    pub fn clear(&mut self)
        ensures none { self.new.len ≡ 0 }
        ensures rest { Untouched self.old self.new }
    {
        self.len = 0;
    }
}
