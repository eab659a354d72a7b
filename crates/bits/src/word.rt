// Rows of a bit string read as one word, and what a word says of its rows.
ghost use Rattle.std.specs.Prelude.{◌≡◌, ℕ, ◌+◌, ◌-◌, ◌*◌, ◌^◌, ◌<◌, ◌≤◌, true, false, not, length, slice_index};
ghost use Rattle.rows.specs.Rows.{selected_count};
ghost use Rattle.bits.specs.Bits.{bit_at, row_at, mask_rows, word_rows};

// The bit at place p.
#[tactic(auto, unfolding(crate::specs::Bits::row_at, crate::specs::Bits::bit_at, crate::specs::Bits::digit))]
pub(crate) fn bit_at(bytes: &[u8], p: usize) -> bool
    requires { p < 8 * length bytes.now }
    ensures { result ≡ row_at bytes.now p }
{
    (bytes[p / 8] >> (p % 8)) & 1 == 1
}

// The byte at place i, and 0 past the end.
fn byte_or_zero(bytes: &[u8], i: usize) -> u8
    ensures { result ≡ slice_index bytes.now i }
{
    bytes.get(i).copied().unwrap_or(0)
}

// The word of eight bytes from byte i on, of which what lies past the end is 0. They are taken one by one, since a copy of so few takes longer.
fn last_bytes(bytes: &[u8], i: usize) -> u64
    requires { i + 8 < 2 ^ 64 }
    ensures { word_rows result 64 ≡ mask_rows bytes.now (8 * i) 64 }
{
    u64::from_le_bytes([
        byte_or_zero(bytes, i),
        byte_or_zero(bytes, i + 1),
        byte_or_zero(bytes, i + 2),
        byte_or_zero(bytes, i + 3),
        byte_or_zero(bytes, i + 4),
        byte_or_zero(bytes, i + 5),
        byte_or_zero(bytes, i + 6),
        byte_or_zero(bytes, i + 7),
    ])
}

// The same where there are mostly as many bytes.
fn eight_bytes(bytes: &[u8], i: usize) -> u64
    requires { i + 8 < 2 ^ 64 }
    ensures { word_rows result 64 ≡ mask_rows bytes.now (8 * i) 64 }
{
    if let Some(whole) = bytes.get(i..i + 8) {
        if let Some(eight) = whole.first_chunk::<8>() {
            return u64::from_le_bytes(*eight);
        }
    }
    last_bytes(bytes, i)
}

// The 64 rows from bit p on; those past the bytes read as 0.
pub fn word_at(bytes: &[u8], p: usize) -> u64
    ensures { word_rows result 64 ≡ mask_rows bytes.now p 64 }
{
    let i = p / 8;
    let by = p % 8;
    // First the byte above: where there is one, the eight below it need no test.
    let high = bytes.get(i + 8).copied().unwrap_or(0) as u64;
    let low = eight_bytes(bytes, i);
    (low >> by) | ((high << 1) << (63 - by))
}

// The n low bits of a word, with zeros above them.
pub(crate) fn low_bits(w: u64, n: usize) -> u64
    requires { n ≤ 64 }
    ensures small { result < 2 ^ n }
    ensures rows { word_rows result n ≡ word_rows w n }
{
    if n == 64 {
        return w;
    }
    w % (1 << n)
}

// How many bits of a word are set.
#[tactic(auto, using(crate::proofs::Words::ones_selected))]
pub(crate) fn word_ones(w: u64) -> usize
    ensures { result ≡ selected_count (word_rows w 64) }
{
    w.count_ones() as usize
}

// How many low bits of a word have the mark `set`.
pub fn same_bits(w: u64, set: bool) -> usize
    ensures within { result ≤ 64 }
    ensures alike { (k : ℕ) → k < result → bit_at w k ≡ set }
    ensures stops { result < 64 → bit_at w result ≡ not set }
{
    let same = if set {
        w.trailing_ones()
    } else {
        w.trailing_zeros()
    };
    same as usize
}
