// A mask: rows as the bits of bytes that are lent.
ghost use Rattle.std.specs.Prelude.{◌+◌, ◌*◌, ◌<◌, ◌≤◌, length};
ghost use Rattle.rows.specs.Rows.{row_limit};

// The rows are the `len` bits from bit `offset` of the first byte on; bits past them are no rows. A slice counts bytes, so the number of bits stands beside it.
#[derive(Clone, Copy)]
pub struct Mask<'a> {
    pub(crate) bytes: &'a [u8],
    pub(crate) offset: usize,
    pub(crate) len: usize,
    ghost within: { offset + len ≤ 8 * length bytes.now },
    ghost near: { offset < 8 },
    ghost few: { len ≤ row_limit },
}
