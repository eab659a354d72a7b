// Writing rows of one mark into a byte.
ghost use Rattle.std.specs.Prelude.{◌≡◌, ℕ, ◌+◌, ◌^◌, ◌<◌, ◌≤◌};
ghost use Rattle.bits.specs.Bits.{bit_at};

// The first s bits of a byte, which are rows, and m rows more of one mark above them.
pub fn topped(old: u8, s: usize, m: usize, set: bool) -> u8
    requires { s + m ≤ 8 }
    ensures small { result < 2 ^ (s + m) }
    ensures kept { (k : ℕ) → k < s → bit_at result k ≡ bit_at old k }
    ensures added { (k : ℕ) → s ≤ k → k < s + m → bit_at result k ≡ set }
{
    let kept = old as u64 % (1 << s);
    if set {
        (kept + (((1 << m) - 1) << s)) as u8
    } else {
        kept as u8
    }
}
