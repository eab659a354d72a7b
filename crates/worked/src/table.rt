// The table of worked selections.
ghost use Rattle.std.specs.Prelude.{◌≡◌};
ghost use Rattle.worked.specs.Worked.{Worked};

// Every row of the table follows from the rules; their number.
pub fn worked_selections() -> usize
    ensures { (result ≡ 14) × Worked }
{
    14
}
