// Two selections made into one.
ghost use Rattle.std.specs.Prelude.{◌&&◌, ◌||◌};
ghost use Rattle.rows.specs.Rules.{and_then, combine};
ghost use Rattle.runs.specs.Sinks.{Writes, Delivers, JoinsInto};
ghost use Rattle.algebra.specs.Verdicts.{narrows};
ghost use Rattle.selections.specs.Forms.{selection_rows};

use crate::form::RowSelection;
use algebra::and_then::and_then;
use algebra::combine::combine;
use algebra::join::join;
use policies::both::{And, Or};
use policies::policy::Policy;
use refusals::fault::SelectionFault;
use runs::sink::RowSink;
use words::combine::combine_masks;
use words::join::join_masks;
use words::sink::WordSink;

impl<'a> RowSelection<'a> {
    // Row i is selected iff this selects it and the second selects its rank. Refused by 4, 5 and 12.
    pub fn and_then<K: RowSink>(
        &self,
        second: &RowSelection,
        out: &mut K,
    ) -> Result<(), SelectionFault>
        ensures { Writes K.sink out.old (narrows K.sink out.old (selection_rows self.now) (selection_rows second.now)) (and_then (selection_rows self.now) (selection_rows second.now)) result out.new }
    {
        and_then(*self, *second, out)
    }

    // The rows of both under a policy; two masks go by words. Refused by 12.
    pub fn combine<P: Policy, K: WordSink>(
        &self,
        other: &RowSelection,
        policy: P,
        out: &mut K,
    ) -> Result<(), SelectionFault>
        ensures { Delivers K.sink out.old (combine P.rule (selection_rows self.now) (selection_rows other.now)) result out.new }
    {
        match (self.mask(), other.mask()) {
            (Some(first), Some(second)) => combine_masks(first, second, policy, out),
            _ => combine(*self, *other, policy, out),
        }
    }

    // The rows that both select. Refused by 12.
    pub fn intersection<K: WordSink>(
        &self,
        other: &RowSelection,
        out: &mut K,
    ) -> Result<(), SelectionFault>
        ensures { Delivers K.sink out.old (combine (λ x y. x && y) (selection_rows self.now) (selection_rows other.now)) result out.new }
    {
        self.combine(other, And, out)
    }

    // The rows that one of them selects. Refused by 12.
    pub fn union<K: WordSink>(
        &self,
        other: &RowSelection,
        out: &mut K,
    ) -> Result<(), SelectionFault>
        ensures { Delivers K.sink out.old (combine (λ x y. x || y) (selection_rows self.now) (selection_rows other.now)) result out.new }
    {
        self.combine(other, Or, out)
    }

    // The second's rows after these. Refused by 1 at the second part where the two pass the row limit, then by 12.
    pub fn join<K: WordSink>(
        &self,
        second: &RowSelection,
        out: &mut K,
    ) -> Result<(), SelectionFault>
        ensures { JoinsInto K.sink out.old (selection_rows self.now) (selection_rows second.now) result out.new }
    {
        match (self.mask(), second.mask()) {
            (Some(first), Some(more)) => join_masks(first, more, out),
            _ => join(*self, *second, out),
        }
    }
}
