// Why a request came to no answer of a cell.
ghost use Rattle.std.specs.Prelude.{◌≡◌};
ghost use Rattle.driver_cells.specs.Fronts.{no_front};
ghost use Rattle.driver_lists.specs.Stopping.{TellsStop};

use driver_cells::{NO_FRONT, Outcome, run_out};
use refusals::no_memory;
use std::alloc::Global;
use virt_types::CellName;

/// Why a request came to no answer of a cell.
#[derive(Clone, Copy, Debug, PartialEq, Eq)]
pub enum Stop {
    /// There was no memory.
    NoMemory,
    /// No ticket was left for a pass.
    Spent,
}

/// What its caller is told: no cell decides that.
pub(crate) fn stopped(alloc: Global, why: Stop) -> Outcome
    ensures tells { TellsStop why result.reply }
    ensures name { result.cell ≡ CellName.Nowhere }
    ensures front { result.front ≡ no_front }
{
    match why {
        Stop::Spent => run_out(alloc),
        Stop::NoMemory => Outcome {
            reply: no_memory(alloc),
            cell: CellName::Nowhere,
            front: NO_FRONT,
        },
    }
}
