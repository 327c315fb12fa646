// A chapter ends, and the next one begins.
ghost use Rattle.std.specs.Prelude.{◌≡◌, ◌≤◌, ◌<◌, ◌^◌, List, None, Option};
ghost use Rattle.domain_spec.specs.Cell.{HeldEvent, LentEars};
ghost use Rattle.core_log.specs.Record.{force_of};
ghost use Rattle.core_steps.specs.Rooms.{HasEnd, IsKept};
ghost use Rattle.core_steps.specs.Clients.{Rotates};

use crate::leave;
use core_log::Record;
use history_spec::Stamp;
use job_rules::Queue;
use std::alloc::Global;
use virt_types::{NoMemory, Who};

/// Ends the chapter, where no call is open: the next one begins with the state, the operation that is under way,
/// and who is registered. Where there is no memory all stays, but the caller waits no more.
pub fn rotate(
    kept: &mut Record,
    queue: &mut Queue,
    rooms: usize,
    alloc: Global,
    by: Stamp,
    who: Who,
) -> Result<(), NoMemory>
    requires none { (force_of kept.old).job ≡ None }
    requires number { kept.old.history.chapter < 2 ^ 62 }
    requires few { rooms ≤ 128 }
    ensures rotates { Rotates by.number who kept.old kept.new queue.old queue.new result }
    ensures course { kept.new.course ≡ kept.old.course }
    ensures kept { (held : List HeldEvent) → (ears : Option LentEars) → IsKept kept.old held ears rooms → IsKept kept.new held ears rooms }
    ensures ends { HasEnd kept.old rooms → HasEnd kept.new rooms }
{
    match kept.rotate(alloc, 3 + rooms) {
        Ok(()) => {
            drop(by);
            Ok(())
        }
        Err(NoMemory) => {
            leave(queue, by, who);
            Err(NoMemory)
        }
    }
}
