// A request of a row that has a pass without tickets.
ghost use Rattle.std.specs.Prelude.{◌≡◌};
ghost use Rattle.domain_tasks.specs.OfObjects.{TellsSpent};
ghost use Rattle.driver_cells.specs.Fronts.{no_front};

use domain_tasks::{Outcome, ReplyRoom, no_memory};
use std::alloc::Global;
use virt_types::{CellName, Front, NoMemory};

/// The front of a cell of which nothing was seen: no other is shorter.
pub const NO_FRONT: Front = Front {
    chapter: 0,
    marks: 0,
};

/// No ticket is left for a pass of the row: no cell decides that.
pub fn run_out(alloc: Global) -> Outcome
    ensures reply { TellsSpent result.reply }
    ensures name { result.cell ≡ CellName.Nowhere }
    ensures front { result.front ≡ no_front }
{
    let reply = match ReplyRoom::new(alloc) {
        Ok(room) => room.spent(),
        Err(NoMemory) => no_memory(alloc),
    };
    Outcome {
        reply,
        cell: CellName::Nowhere,
        front: NO_FRONT,
    }
}
