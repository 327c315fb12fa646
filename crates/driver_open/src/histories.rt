// Room for the histories of domains.
ghost use Rattle.std.specs.Prelude.{◌≡◌, ◌≤◌, IfOk, []};
ghost use Rattle.std.specs.Vec.{vec_capacity};

use driver_cells::Chronicle;
use std::alloc::Global;
use std::marker::Model;
use virt_types::NoMemory;

/// Room for the histories of domains: it is taken as a driver is opened, since its end takes no memory. Contracts see how
/// many fit.
#[derive(Drop)]
pub struct HistoryRoom {
    room: Vec<Chronicle>,
}

impl Model for HistoryRoom {
    ghost use Rattle.std.specs.Prelude.{◌≡◌, ℕ, []};
    ghost use Rattle.std.specs.Vec.{vec_capacity};

    ghost Value = { ℕ };

    ghost view = { λ h. vec_capacity h.room };

    ghost invariant = { λ h. h.room.items ≡ [] };
}

impl HistoryRoom {
    /// Room for so many.
    pub fn new(alloc: Global, count: usize) -> Result<HistoryRoom, NoMemory>
        ensures { IfOk result (λ room. count ≤ room) }
    {
        match Vec::with_capacity(alloc, count) {
            Ok(room) => Ok(HistoryRoom { room }),
            Err(_) => Err(NoMemory),
        }
    }

    /// The empty vector that has it.
    pub fn into_vec(self) -> Vec<Chronicle>
        ensures empty { result.items ≡ [] }
        ensures room { vec_capacity result ≡ self }
    {
        let HistoryRoom { room } = self;
        room
    }
}
