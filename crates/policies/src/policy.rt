// What a combining policy is.
ghost use Rattle.std.specs.Prelude.{◌≡◌, Bool, ℕ, ◌<◌};
ghost use Rattle.bits.specs.Bits.{bit_at};

// A function of two row marks, and a second function that does the same at each bit of two words.
pub trait Policy: Copy {
    ghost rule: { Bool → Bool → Bool };

    // The mark of a row that has these marks in the two selections.
    fn mark(a: bool, b: bool) -> bool
        ensures { result ≡ rule a b };

    // The same for 64 rows.
    fn word(a: u64, b: u64) -> u64
        ensures { (k : ℕ) → k < 64 → bit_at result k ≡ rule (bit_at a k) (bit_at b k) };

    ghost assoc: { (x y z : Bool) → rule (rule x y) z ≡ rule x (rule y z) };

    ghost comm: { (x y : Bool) → rule x y ≡ rule y x };

    ghost idem: { (x : Bool) → rule x x ≡ x };
}
