// Two masks combined by a policy, without memory of their own.
ghost use Rattle.rows.specs.Rules.{combine};
ghost use Rattle.bits.specs.Masks.{rows as rows_of_mask};
ghost use Rattle.words.specs.Shown.{few-combined};

use crate::splice::splice;
use crate::word_rows::WordRows;
use bits::mask::Mask;
use policies::policy::Policy;

// Where both have a row, the policy's mark of the two; past the shorter, the longer's rows.
#[derive(Clone, Copy)]
pub struct Combined<'a, 'b, P> {
    pub(crate) first: Mask<'a>,
    pub(crate) second: Mask<'b>,
    pub(crate) policy: P,
}

impl<'a, 'b, P: Policy> WordRows for Combined<'a, 'b, P> {
    ghost rows = { λ s. combine P.rule (rows_of_mask s.first) (rows_of_mask s.second) };

    fn len(&self) -> usize {
        self.first.len().max(self.second.len())
    }

    fn word(&self, at: usize) -> u64 {
        let x = self.first.word(at);
        let y = self.second.word(at);
        let shorter = self.first.len().min(self.second.len());
        let both = shorter.saturating_sub(at);
        if both >= 64 {
            return P::word(x, y);
        }
        let longer = if self.first.len() > self.second.len() {
            x
        } else {
            y
        };
        splice(P::word(x, y), longer, both)
    }

    ghost within = { λ s. few-combined P.rule s.first s.second };
}
