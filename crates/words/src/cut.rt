// Masks cut short, which takes no memory: the result is a part of the bytes.
ghost use Rattle.std.specs.Prelude.{◌≡◌};
ghost use Rattle.rows.specs.Rules.{limit, trimmed, split_front, split_rest};
ghost use Rattle.bits.specs.Masks.{rows as rows_of_mask};

use bits::mask::Mask;

// Up to and with the n-th selected row, or all rows where fewer are selected.
pub fn limit_mask<'a>(mask: Mask<'a>, n: usize) -> Mask<'a>
    ensures { rows_of_mask result ≡ limit n (rows_of_mask mask.entry) }
{
    mask.slice(0, mask.find_nth_set_bit_position(n))
}

// Without the skipped rows at the end.
pub fn trim_mask<'a>(mask: Mask<'a>) -> Mask<'a>
    ensures { rows_of_mask result ≡ trimmed (rows_of_mask mask.entry) }
{
    match mask.last_set_bit() {
        Some(last) => mask.slice(0, last + 1),
        None => mask.slice(0, 0),
    }
}

// The first n rows, or all where there are fewer, and the rest.
pub fn split_mask<'a>(mask: Mask<'a>, n: usize) -> (Mask<'a>, Mask<'a>)
    ensures front { rows_of_mask result.0 ≡ split_front n (rows_of_mask mask.entry) }
    ensures rest { rows_of_mask result.1 ≡ split_rest n (rows_of_mask mask.entry) }
{
    (mask.slice(0, n), mask.slice(n, mask.len()))
}
