// Rows that can be read 64 at a time, from any row on.
ghost use Rattle.std.specs.Prelude.{◌≡◌, ℕ, ◌+◌, ◌<◌, ◌≤◌, Bool, List, length};
ghost use Rattle.rows.specs.Rows.{row_limit};
ghost use Rattle.rows.specs.Said.{Selects};
ghost use Rattle.bits.specs.Bits.{bit_at};

pub trait WordRows: Copy {
    ghost rows: { Self → List Bool };

    // How many rows there are.
    fn len(&self) -> usize
        ensures { result ≡ length (rows self.now) };

    // The 64 rows from row `at` on, the first of them as bit 0; the bits past the last row are 0.
    fn word(&self, at: usize) -> u64
        ensures { (k : ℕ) → k < 64 → bit_at result k ≡ Selects (rows self.now) (at + k) };

    // no more rows than the limit
    ghost within: { (s : Self) → length (rows s) ≤ row_limit };
}
