// Two masks compared word by word.
ghost use Rattle.std.specs.Prelude.{◌≡◌};
ghost use Rattle.rows.specs.Items.{Decides};
ghost use Rattle.bits.specs.Masks.{rows as rows_of_mask};

use bits::mask::Mask;

// Whether both have the same rows, wherever these begin in their bytes.
pub fn same_mask_rows(a: Mask, b: Mask) -> bool
    ensures { Decides result (rows_of_mask a.entry ≡ rows_of_mask b.entry) }
{
    let n = a.len();
    if b.len() != n {
        return false;
    }
    for i in 0..n.div_ceil(64) {
        if a.word(64 * i) != b.word(64 * i) {
            return false;
        }
    }
    true
}
