// One word out of two.
ghost use Rattle.std.specs.Prelude.{◌≡◌, ℕ, ◌<◌, ◌≤◌};
ghost use Rattle.bits.specs.Bits.{bit_at};

// The n low bits of one word, and above them the bits of another.
pub(crate) fn splice(low: u64, high: u64, n: usize) -> u64
    requires { n < 64 }
    ensures under { (k : ℕ) → k < n → bit_at result k ≡ bit_at low k }
    ensures over { (k : ℕ) → n ≤ k → bit_at result k ≡ bit_at high k }
{
    ((high >> n) << n) + low % (1 << n)
}
