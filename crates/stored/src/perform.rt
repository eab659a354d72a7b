// Results with as much memory as they need.
ghost use Rattle.std.specs.Prelude.{◌≡◌, Ok, IfOk};
ghost use Rattle.runs.specs.Sinks.{then_placed};
ghost use Rattle.stored.specs.declared.room.Room.TheVariants.{Runs, Mask};
ghost use Rattle.stored.specs.Ends.{Ends, fitted, masked_in};
ghost use Rattle.stored.specs.Rows.{rows_of_runs, rows_of_mask, stored_rows, in_mask as held_in_mask};

use crate::bytes::StoredMask;
use crate::held::Stored;
use crate::operation::Operate;
use crate::room::{Fill, Room, in_mask, in_room, in_runs};
use crate::stored_runs::StoredRuns;
use crate::trouble::Trouble;
use std::alloc::Global;
use words::sink::WordSink;

// All rows of an operation's result.
#[derive(Clone, Copy)]
struct Whole<O> {
    of: O,
}

impl<O: Operate> Fill for Whole<O> {
    type Told = ();

    ghost written = { λ w. O.made w.of };

    ghost before = { λ w. O.wrong w.of };

    ghost after = { λ _. Ok tt };

    ghost filled = { λ _ _ _. Unit {0} };

    fn fill<K: WordSink>(&mut self, out: &mut K) -> Result<(), Trouble> {
        self.of.write(out)?;
        Ok(())
    }
}

// The result in runs, in a place of at most so many.
pub fn into_runs<O: Operate>(heap: Global, operation: O, most: usize) -> Result<StoredRuns, Trouble>
    ensures verdict { Ends (then_placed (O.wrong operation) (fitted (Runs most) (O.made operation))) result }
    ensures rows { IfOk result (λ s. rows_of_runs s ≡ O.made operation) }
{
    let (runs, ()) = in_runs(heap, &operation, most, &mut Whole { of: operation })?;
    Ok(runs)
}

// The result in a mask, in a place of at most so many bytes.
pub fn into_mask<O: Operate>(heap: Global, operation: O, most: usize) -> Result<StoredMask, Trouble>
    ensures verdict { Ends (then_placed (O.wrong operation) (fitted (Mask most) (O.made operation))) result }
    ensures rows { IfOk result (λ m. rows_of_mask m ≡ O.made operation) }
{
    let (mask, ()) = in_mask(heap, &operation, most, &mut Whole { of: operation })?;
    Ok(mask)
}

// The result in a place.
pub fn perform<O: Operate>(heap: Global, operation: O, room: Room) -> Result<Stored, Trouble>
    ensures verdict { Ends (then_placed (O.wrong operation) (fitted room (O.made operation))) result }
    ensures rows { IfOk result (λ s. stored_rows s ≡ O.made operation) }
    ensures form { IfOk result (λ s. held_in_mask s ≡ masked_in room) }
{
    let (stored, ()) = in_room(heap, &operation, room, &mut Whole { of: operation })?;
    Ok(stored)
}
