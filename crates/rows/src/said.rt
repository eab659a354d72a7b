// The rules as people say them, proved of the definitions that contracts cite.
ghost use Rattle.std.specs.Prelude.{◌≡◌};
ghost use Rattle.rows.specs.Said.{Said};

// Every statement of the record holds; their number.
pub fn rules_as_said() -> usize
    ensures { (result ≡ 8) × Said }
{
    8
}
