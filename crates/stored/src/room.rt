// Memory for results: as much as they need, up to a bound.
ghost use Rattle.std.specs.Prelude.{◌≡◌, Bool, List, length, Ok, IfOk};
ghost use Rattle.refusals.specs.Refusals.{bits};
ghost use Rattle.runs.specs.Sinks.{Verdict, placed, priced, admitted};
ghost use Rattle.bits.specs.Bits.{mask_rows};
ghost use Rattle.bits.specs.Masks.{mask_verdict};
ghost use Rattle.masks.specs.Spares.{bytes_of};
ghost use Rattle.stored.specs.declared.room.Room.TheVariants.{Runs, Mask};
ghost use Rattle.stored.specs.Rows.{rows_of_runs, rows_of_mask, stored_rows, in_mask as held_in_mask};
ghost use Rattle.stored.specs.Ends.{Ends, Needs, Serves, in_turn, fitted, masked_in};

use crate::bytes::StoredMask;
use crate::held::Stored;
use crate::operation::Operate;
use crate::stored_runs::StoredRuns;
use crate::trouble::Trouble;
use masks::place::MaskPlace;
use refusals::fault::SelectionFault;
use rows::selector::RowSelector;
use runs::run_place::RunPlace;
use std::alloc::Global;
use words::sink::WordSink;

// A place for a result: of at most so many runs, or of at most so many bytes.
#[derive(Clone, Copy, PartialEq, Eq, Debug)]
pub enum Room {
    Runs(usize),
    Mask(usize),
}

// What fills a sink of either form, and what it tells besides. A closure would have to be generic over the sink.
pub(crate) trait Fill {
    type Told: Drop;

    // the rows that it writes
    ghost written: { Self → List Bool };

    // what it is refused by before its sink is asked for room, and after
    ghost before: { Self → Verdict };

    ghost after: { Self → Verdict };

    // what is told where the rows were written
    ghost filled: { Self → Self.Told → Self → Type 0 };

    fn fill<K: WordSink>(&mut self, out: &mut K) -> Result<Self::Told, Trouble>
        ensures verdict { Ends (in_turn (before self.old) (placed K.sink out.old (written self.old)) (after self.old)) result }
        ensures rows { IfOk result (λ _. K.sink.rows out.new ≡ written self.old) }
        ensures told { IfOk result (λ t. filled self.old t self.new) }
        ensures rest { IfOk result (λ _. K.sink.keeps out.old out.new) };
}

// What the result of an operation needs in the form of an empty sink, which has no room.
fn needed<O: Operate, K: WordSink>(of: &O, empty: &mut K) -> Result<usize, SelectionFault>
    requires { K.sink.capacity empty.old ≡ 0 }
    ensures { Needs (O.wrong of.now) (priced K.sink.cost (O.made of.now)) result }
{
    match of.write(empty) {
        Ok(()) => Ok(0),
        Err(fault) => {
            let refusal = fault.refusal();
            if refusal.number == 12 {
                Ok(refusal.place)
            } else {
                Err(fault)
            }
        }
    }
}

// A job's rows as runs, in a place of at most so many, and no more than an operation needs.
pub(crate) fn in_runs<O: Operate, J: Fill>(
    heap: Global,
    of: &O,
    most: usize,
    job: &mut J,
) -> Result<(StoredRuns, J::Told), Trouble>
    requires { Serves (O.wrong of.now) (O.made of.now) (J.before job.old) (J.written job.old) }
    ensures verdict { Ends (in_turn (J.before job.old) (fitted (Runs most) (J.written job.old)) (J.after job.old)) result }
    ensures rows { IfOk result (λ t. rows_of_runs t.0 ≡ J.written job.old) }
    ensures told { IfOk result (λ t. J.filled job.old t.1 job.new) }
{
    let needed = needed(of, &mut RunPlace::new(&mut []))?;
    let mut slots = vec![in heap; RowSelector::skip(0); needed.min(most)]?;
    let mut place = RunPlace::new(slots.as_mut_slice());
    let told = job.fill(&mut place)?;
    Ok((StoredRuns::copy_of(heap, place.list())?, told))
}

// How many rows a place holds.
fn held(place: &MaskPlace<'_>) -> usize
    ensures { result ≡ place.now.len }
{
    place.mask().len()
}

// A job's rows from bit 0 of the bytes on; how many they are, and what it tells.
fn fill_bytes<J: Fill>(bytes: &mut [u8], job: &mut J) -> Result<(usize, J::Told), Trouble>
    ensures verdict { Ends (in_turn (J.before job.old) (admitted bits (length bytes.old) (bytes_of (length (J.written job.old)))) (J.after job.old)) result }
    ensures rows { IfOk result (λ t. mask_rows bytes.new 0 t.0 ≡ J.written job.old) }
    ensures told { IfOk result (λ t. J.filled job.old t.1 job.new) }
    ensures sound { IfOk result (λ t. mask_verdict bytes.new 0 t.0 ≡ Ok tt) }
{
    let mut place = MaskPlace::new(bytes);
    let told = job.fill(&mut place)?;
    Ok((held(&place), told))
}

// A job's rows as a mask, in a place of at most so many bytes, and no more than an operation needs.
pub(crate) fn in_mask<O: Operate, J: Fill>(
    heap: Global,
    of: &O,
    most: usize,
    job: &mut J,
) -> Result<(StoredMask, J::Told), Trouble>
    requires { Serves (O.wrong of.now) (O.made of.now) (J.before job.old) (J.written job.old) }
    ensures verdict { Ends (in_turn (J.before job.old) (fitted (Mask most) (J.written job.old)) (J.after job.old)) result }
    ensures rows { IfOk result (λ t. rows_of_mask t.0 ≡ J.written job.old) }
    ensures told { IfOk result (λ t. J.filled job.old t.1 job.new) }
{
    let needed = needed(of, &mut MaskPlace::new(&mut []))?;
    let mut bytes = vec![in heap; 0u8; needed.min(most)]?;
    let (len, told) = fill_bytes(bytes.as_mut_slice(), job)?;
    let Ok(mask) = StoredMask::new(bytes, 0, len) else {
        unreachable()
    };
    Ok((mask, told))
}

// A job's rows in a place, of which it takes no more than an operation needs.
pub(crate) fn in_room<O: Operate, J: Fill>(
    heap: Global,
    of: &O,
    room: Room,
    job: &mut J,
) -> Result<(Stored, J::Told), Trouble>
    requires { Serves (O.wrong of.now) (O.made of.now) (J.before job.old) (J.written job.old) }
    ensures verdict { Ends (in_turn (J.before job.old) (fitted room (J.written job.old)) (J.after job.old)) result }
    ensures rows { IfOk result (λ t. stored_rows t.0 ≡ J.written job.old) }
    ensures form { IfOk result (λ t. held_in_mask t.0 ≡ masked_in room) }
    ensures told { IfOk result (λ t. J.filled job.old t.1 job.new) }
{
    match room {
        Room::Runs(most) => {
            let (runs, told) = in_runs(heap, of, most, job)?;
            Ok((Stored::Runs(runs), told))
        }
        Room::Mask(most) => {
            let (mask, told) = in_mask(heap, of, most, job)?;
            Ok((Stored::Mask(mask), told))
        }
    }
}
