// A selection split in two, each part with as much memory as it needs.
ghost use Rattle.std.specs.Prelude.{◌≡◌, Ok, IfOk};
ghost use Rattle.rows.specs.Rules.{split_front, split_rest};
ghost use Rattle.runs.specs.Sinks.{placed, then_placed};
ghost use Rattle.selections.specs.Forms.{selection_rows};
ghost use Rattle.stored.specs.Ends.{Ends, fitted, masked_in};
ghost use Rattle.stored.specs.Rows.{stored_rows, in_mask};

use crate::held::Stored;
use crate::operation::Operation;
use crate::room::{Fill, Room, in_room};
use crate::trouble::Trouble;
use selections::form::RowSelection;
use std::alloc::Global;
use words::sink::WordSink;

// The first n rows, which are written when the rest has its room.
#[derive(Drop)]
struct Front<'a> {
    heap: Global,
    of: RowSelection<'a>,
    n: usize,
    rest: Room,
}

// The rest, written together with the first part. The selection is lent: beside a `&mut`, a value with ghost fields has no proof.
#[derive(Drop)]
struct Rest<'s, 'f, F> {
    of: &'s RowSelection<'s>,
    n: usize,
    front: &'f mut F,
}

impl<'s, 'f, F: WordSink> Rest<'s, 'f, F> {
    fn new(of: &'s RowSelection<'s>, n: usize, front: &'f mut F) -> Rest<'s, 'f, F>
        ensures of { (result.of.now ≡ of.now) × (result.n ≡ n) }
        ensures front { (result.front.ghost_name ≡ front.entry.ghost_name) × (result.front.now ≡ front.old) }
    {
        Rest { of, n, front }
    }
}

impl<'a> Fill for Front<'a> {
    type Told = Stored;

    ghost written = { λ f. split_front f.n (selection_rows f.of) };

    ghost before = { λ _. Ok tt };

    ghost after = { λ f. fitted f.rest (split_rest f.n (selection_rows f.of)) };

    ghost filled = { λ f s _. (stored_rows s ≡ split_rest f.n (selection_rows f.of)) × (in_mask s ≡ masked_in f.rest) };

    fn fill<K: WordSink>(&mut self, out: &mut K) -> Result<Stored, Trouble> {
        let of = self.of;
        let mut rest = Rest::new(&of, self.n, out);
        let (stored, ()) = in_room(self.heap, &Operation::Convert(of), self.rest, &mut rest)?;
        Ok(stored)
    }
}

impl<'s, 'f, F: WordSink> Fill for Rest<'s, 'f, F> {
    type Told = ();

    ghost written = { λ r. split_rest r.n (selection_rows r.of.now) };

    // the first part's sink is asked first
    ghost before = { λ r. placed F.sink r.front.now (split_front r.n (selection_rows r.of.now)) };

    ghost after = { λ _. Ok tt };

    ghost filled = { λ r _ t. (F.sink.rows t.front.now ≡ split_front r.n (selection_rows r.of.now)) × F.sink.keeps r.front.now t.front.now × (t.front.ghost_name ≡ r.front.ghost_name) };

    fn fill<K: WordSink>(&mut self, out: &mut K) -> Result<(), Trouble> {
        self.of.split_off(self.n, &mut *self.front, out)?;
        Ok(())
    }
}

// The first n rows and the rest, each in a place of at most so many runs or bytes. Neither part has more of them than the whole.
pub fn split_stored(
    heap: Global,
    selection: RowSelection,
    n: usize,
    front: Room,
    rest: Room,
) -> Result<(Stored, Stored), Trouble>
    ensures verdict { Ends (then_placed (fitted front (split_front n (selection_rows selection.entry))) (fitted rest (split_rest n (selection_rows selection.entry)))) result }
    ensures front { IfOk result (λ t. stored_rows t.0 ≡ split_front n (selection_rows selection.entry)) }
    ensures rest { IfOk result (λ t. stored_rows t.1 ≡ split_rest n (selection_rows selection.entry)) }
    ensures forms { IfOk result (λ t. (in_mask t.0 ≡ masked_in front) × (in_mask t.1 ≡ masked_in rest)) }
{
    in_room(
        heap,
        &Operation::Convert(selection),
        front,
        &mut Front {
            heap,
            of: selection,
            n,
            rest,
        },
    )
}
