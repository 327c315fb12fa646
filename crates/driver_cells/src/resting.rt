// Passes that are put back into a row.
ghost use Rattle.std.specs.Prelude.{◌≡◌, false};
ghost use Rattle.pass_rows.specs.Resting.{IsSo};

use pass_rows::PassState;
use turn_cell::{Kept, Pass};

/// What is known of a pass for which its cell keeps nothing.
pub fn state_of<T: Kept>(pass: &Pass<T>) -> PassState
    requires { pass.now.spent ≡ false → pass.now.share ≡ T.meaning.nothing }
    ensures { IsSo T.meaning result pass.now }
{
    if pass.is_spent() {
        return PassState::Spent;
    }
    PassState::Idle
}
