// A client registers, or ends its registration.
ghost use Rattle.std.specs.Prelude.{◌≡◌, ◌≤◌, ℕ, List, Option};
ghost use Rattle.domain_spec.specs.Cell.{HeldEvent, LentEars};
ghost use Rattle.domain_spec.specs.TakeUp.{is_vacant};
ghost use Rattle.event_queue.specs.Listening.{listening_of};
ghost use Rattle.core_log.specs.Record.{IsQuietOf, force_of};
ghost use Rattle.core_steps.specs.Rooms.{HasEnd, IsKept};
ghost use Rattle.core_steps.specs.Clients.{Leaves, Watches};

use core_log::Record;
use event_queue::MOST_LISTENERS;
use history_spec::Stamp;
use std::alloc::Global;
use virt_types::{NoMemory, State};

/// Why a client could not register.
#[derive(Clone, Copy, Debug, PartialEq, Eq)]
pub enum WatchFault {
    /// There is no domain.
    Vacant,
    /// So many are registered already.
    Full(u32),
    /// There was no memory.
    NoMemory,
}

fn is_vacant(kept: &Record) -> bool
    ensures { result ≡ is_vacant (force_of kept.now).state }
{
    match kept.state() {
        State::Vacant { .. } => true,
        State::Held(_) => false,
    }
}

/// Registers a client, for the transitions that come from now on. It gets the least number below 16 that no
/// registration has; where there is no domain, or each number has one, nothing changes.
pub fn watch(kept: &mut Record, rooms: usize, alloc: Global, by: Stamp) -> Result<u32, WatchFault>
    requires few { rooms ≤ 128 }
    ensures watches { Watches by.number kept.old kept.new result }
    ensures course { kept.new.course ≡ kept.old.course }
    ensures kept { (held : List HeldEvent) → (ears : Option LentEars) → IsKept kept.old held ears rooms → IsKept kept.new held ears rooms }
    ensures ends { HasEnd kept.old rooms → HasEnd kept.new rooms }
{
    if is_vacant(kept) {
        return Err(WatchFault::Vacant);
    }
    match kept.least_free() {
        None => Err(WatchFault::Full(MOST_LISTENERS)),
        Some(client) => match kept.reserve(5 + rooms) {
            Err(NoMemory) => Err(WatchFault::NoMemory),
            Ok(()) => match kept.watch(alloc, by, client) {
                Err(NoMemory) => Err(WatchFault::NoMemory),
                Ok(()) => Ok(client),
            },
        },
    }
}

/// Ends a registration for which nothing pends, by the pass that made it. It takes no memory: the room was set
/// aside as the client registered.
pub fn unwatch(kept: &mut Record, by: Stamp, client: u32)
    requires quiet { IsQuietOf (listening_of kept.old.listeners client) by.number }
    ensures leaves { Leaves by.number client kept.old kept.new }
    ensures kept { (held : List HeldEvent) → (ears : Option LentEars) → (rooms : ℕ) → IsKept kept.old held ears rooms → IsKept kept.new held ears rooms }
    ensures ends { (rooms : ℕ) → HasEnd kept.old rooms → HasEnd kept.new rooms }
{
    kept.unwatch(by, client);
}
