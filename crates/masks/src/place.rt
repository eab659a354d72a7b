// A place of bytes that the caller lends, for a mask.
ghost use Rattle.std.specs.Prelude.{◌*◌, ◌≤◌, length};
ghost use Rattle.rows.specs.Rows.{row_limit};
ghost use Rattle.masks.specs.Spares.{Spare};

// The library allocates nothing, so it holds a slice and not a `Vec`. Its rows are the first `len` bits, from bit 0 on; the spare bits of the last byte are zero.
#[derive(Drop)]
pub struct MaskPlace<'a> {
    pub(crate) bytes: &'a mut [u8],
    pub(crate) len: usize,
    ghost inside: { len ≤ 8 * length bytes.now },
    ghost spare: { Spare len bytes.now },
    ghost few: { len ≤ row_limit },
}
