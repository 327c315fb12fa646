// What a guest did while a call was open, and the room that it needs once it applies.
ghost use Rattle.std.specs.Prelude.{◌≡◌, ◌≤◌, ◌<◌, [], IfOk};

use std::alloc::Global;
use std::marker::Model;
use virt_types::{GuestEvent, NoMemory, RoomyList, TransitionList};

/// What a guest did while a call was open. It applies once none is.
#[derive(Drop)]
pub struct HeldEvent {
    /// Its boot.
    pub boot: u64,
    /// What it did.
    pub event: GuestEvent,
}

impl Model for HeldEvent {
    ghost use Rattle.domain_spec.specs.Cell.{HeldEvent as Held};

    ghost Value = { Held };

    ghost view = { λ h. record { boot = h.boot; event = h.event } };
}

/// Room for what listeners are told by one mark of a guest.
#[derive(Drop)]
pub struct OneRoom {
    told: TransitionList,
}

impl Model for OneRoom {
    ghost use Rattle.std.specs.Prelude.{◌≡◌, ◌<◌, []};
    ghost use Rattle.virt_types.specs.Room.{Roomy};
    ghost use Rattle.domain_spec.specs.Types.{Transition};

    ghost Value = { Roomy Transition };

    ghost view = { λ r. r.told };

    ghost invariant = { λ r. (r.told.list ≡ []) × (0 < r.told.room) };
}

impl OneRoom {
    /// Room for one transition.
    pub fn new(alloc: Global) -> Result<OneRoom, NoMemory> {
        match RoomyList::with_room(alloc, 1) {
            Ok(told) => Ok(OneRoom { told }),
            Err(e) => Err(e),
        }
    }

    /// The list, to which one transition can be added.
    pub fn into_told(self) -> TransitionList
        ensures list { result.list ≡ [] }
        ensures room { 0 < result.room }
    {
        self.told
    }
}
