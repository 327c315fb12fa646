// Answers that no domain gives.
ghost use Rattle.std.specs.Prelude.{◌≡◌};
ghost use Rattle.held_tasks.specs.OfRows.{no_front};

use held_tasks::{NO_FRONT, Outcome};
use virt_types::{CellName, Front, Refusal, Reply};

/// No cell decides it.
pub(crate) fn of_nobody(reply: Reply) -> Outcome
    ensures { result ≡ record { reply = reply; cell = CellName.Nowhere; front = no_front } }
{
    Outcome {
        reply,
        cell: CellName::Nowhere,
        front: NO_FRONT,
    }
}

/// The refusal is that of a mark of the store at this place.
pub(crate) fn of_store(why: Refusal, front: Front) -> Outcome
    ensures { result ≡ record { reply = Reply.No why; cell = CellName.Store; front = front } }
{
    Outcome {
        reply: Reply::No(why),
        cell: CellName::Store,
        front,
    }
}
