// Operations that wait for a place.
ghost use Rattle.std.specs.Prelude.{◌≡◌, ◌≢◌, ℕ, Bool, List, ◌&&◌, Ok};
ghost use Rattle.refusals.specs.declared.refusal.Layer.{Layer};
ghost use Rattle.refusals.specs.Refusals.{refused};
ghost use Rattle.rows.specs.Rules.{combine};
ghost use Rattle.runs.specs.Sinks.{Verdict, Writes, placed, then_placed};
ghost use Rattle.selections.specs.Forms.{selection_rows};
ghost use Rattle.stored.specs.Makes.{made as rows_made, masked, natural_mask, wrong as refused_by};
ghost use Rattle.stored.specs.Shown.{fine-not-12, wrong-not-12};

use policies::policy::Policy;
use refusals::fault::SelectionFault;
use selections::form::RowSelection;
use selections::states::Selection;
use words::sink::WordSink;

// What writes a selection into whatever sink it is given. A closure would have to be generic over the sink.
pub trait Operate: Copy {
    // the rows of its result
    ghost made: { Self → List Bool };

    // whether it is a mask where no form is asked for
    ghost natural: { Self → Bool };

    // what it is refused by wherever the result is to stand, before the place is asked
    ghost wrong: { Self → Verdict };

    // that is never a place too small
    ghost other: { (o : Self) (n : ℕ) (l : Layer) → wrong o ≢ refused 12 n l };

    // Whether its result is a mask where no form is asked for.
    fn is_mask(&self) -> bool
        ensures { result ≡ natural self.now };

    // Writes its result, or refuses and leaves the sink as it is.
    fn write<K: WordSink>(&self, out: &mut K) -> Result<(), SelectionFault>
        ensures { Writes K.sink out.old (then_placed (wrong self.now) (placed K.sink out.old (made self.now))) (made self.now) result out.new };
}

// What makes a selection of one or two others.
#[derive(Clone, Copy)]
pub enum Operation<'a> {
    Convert(RowSelection<'a>),
    Narrow(RowSelection<'a>, RowSelection<'a>),
    And(RowSelection<'a>, RowSelection<'a>),
    Or(RowSelection<'a>, RowSelection<'a>),
    Join(RowSelection<'a>, RowSelection<'a>),
    Offset(RowSelection<'a>, usize),
    Limit(RowSelection<'a>, usize),
    Trim(RowSelection<'a>),
}

impl<'a> Operate for Operation<'a> {
    ghost made = { rows_made };

    ghost natural = { natural_mask };

    ghost wrong = { refused_by };

    ghost other = { wrong-not-12 };

    fn is_mask(&self) -> bool {
        match self {
            Operation::And(first, second)
            | Operation::Or(first, second)
            | Operation::Join(first, second) => first.is_mask() && second.is_mask(),
            Operation::Narrow(of, _)
            | Operation::Offset(of, _)
            | Operation::Limit(of, _)
            | Operation::Convert(of)
            | Operation::Trim(of) => of.is_mask(),
        }
    }

    fn write<K: WordSink>(&self, out: &mut K) -> Result<(), SelectionFault> {
        match self {
            Operation::Convert(of) => of.write(out),
            Operation::Narrow(first, second) => first.and_then(second, out),
            Operation::And(first, second) => first.intersection(second, out),
            Operation::Or(first, second) => first.union(second, out),
            Operation::Join(first, second) => first.join(second, out),
            Operation::Offset(of, n) => of.offset(*n, out),
            Operation::Limit(of, n) => of.limit(*n, out),
            Operation::Trim(of) => Selection::new(*of).trim().source().write(out),
        }
    }
}

// Two selections row by row, by a policy of the caller's.
#[derive(Clone, Copy)]
pub struct Combine<'a, 'b, P> {
    pub first: RowSelection<'a>,
    pub second: RowSelection<'b>,
    pub policy: P,
}

impl<'a, 'b, P: Policy> Operate for Combine<'a, 'b, P> {
    ghost made = { λ c. combine P.rule (selection_rows c.first) (selection_rows c.second) };

    ghost natural = { λ c. masked c.first && masked c.second };

    ghost wrong = { λ _. Ok tt };

    ghost other = { λ _. fine-not-12 };

    fn is_mask(&self) -> bool {
        self.first.is_mask() && self.second.is_mask()
    }

    fn write<K: WordSink>(&self, out: &mut K) -> Result<(), SelectionFault> {
        self.first.combine(&self.second, self.policy, out)
    }
}
