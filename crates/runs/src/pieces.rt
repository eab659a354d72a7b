// Rows handed out piece by piece, where neighbouring pieces may be alike: every operation is such a list of pieces.
ghost use Rattle.std.specs.Prelude.{Bool, List};
ghost use Rattle.runs.specs.Steps.{Piece};

use rows::selector::RowSelector;

// Nothing here bounds the rows: each operation has a reason of its own why they are within the row limit, which it gives where it delivers them.
pub trait Pieces: Copy {
    ghost rows: { Self → List Bool };

    // Some rows from the front, all alike, which are removed; none exactly when no row is left.
    fn piece(&mut self) -> Option<RowSelector>
        ensures { Piece (rows self.old) result (rows self.new) };
}
