// A list that grows over memory which the caller lends, for any element that is copied.
ghost use Rattle.std.specs.Prelude.{◌≤◌, length};

// Said of a place that has no free slot.
#[derive(Clone, Copy, PartialEq, Eq, Debug)]
pub struct Full;

// The first `len` of the slots hold the items. The library allocates nothing, so the list is no `Vec`.
#[derive(Drop)]
pub struct Place<'a, T> {
    pub(crate) slots: &'a mut [T],
    pub(crate) len: usize,
    ghost inside: { len ≤ length slots.now },
}
