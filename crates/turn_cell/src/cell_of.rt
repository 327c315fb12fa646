// Cells, as those reach them that serve them.
ghost use Rattle.std.specs.Prelude.{◌≡◌};
ghost use Rattle.atomic_table.specs.Seated.{TableId};

use crate::cell::TurnCell;
use crate::kept::Kept;

/// What has a cell in which such a value is kept: the cell itself, or what serves it.
pub trait CellOf<T: Kept> {
    // Which cell it is.
    ghost place: { Self → TableId };

    /// The cell.
    fn turn_cell(&self) -> &TurnCell<T>
        ensures { result.now ≡ place self.now };
}

impl<T: Kept> CellOf<T> for TurnCell<T> {
    ghost place = { λ cell. cell };

    fn turn_cell(&self) -> &TurnCell<T>
        ensures { result.now ≡ self.now }
    {
        self
    }
}
