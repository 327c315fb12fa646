ghost use Rattle.std.specs.Prelude.{◌≡◌, ◌^◌};
ghost use Rattle.sink_turns.specs.Closing.{HasClosed};

use crate::spoken::Out;
use crate::turns::OutPass;
use packet::Sink;
use turn_cell::TurnCell;
use types_base::Failed;

/// Closes the cell with the one pass that all became, puts what still waits, and gives the sink back.
pub fn close<K: Sink + Drop>(cell: TurnCell<Out<K>>, pass: OutPass<K>) -> (K, Result<(), Failed>)
    requires own { pass.cell ≡ cell }
    requires last { pass.parts ≡ 2 ^ 62 }
    ensures { HasClosed pass (K.held result.0) (K.faults result.0) result.1 }
{
    cell.close(pass).end()
}
