//! What is known after turns, whatever the value. The functions do nothing; proofs use what they promise.
ghost use Rattle.turn_cell.specs.Turning.{TurnTells, TurnsAddUp};

use crate::kept::Kept;

/// What a pass knows after a turn in which the value was changed.
pub fn a_turn_tells<T: Kept>()
    ensures { TurnTells T.meaning }
{}

/// So many turns, and so many more, are all these turns, with the marks of both.
pub fn turns_add_up<T: Kept>()
    ensures { TurnsAddUp T.meaning }
{}
