// A client takes what pends for it, or lets go of it.
ghost use Rattle.std.specs.Prelude.{◌≡◌, ℕ, IfOk, List, OnErr, OnOk, Option, true};
ghost use Rattle.domain_spec.specs.Cell.{HeldEvent, LentEars};
ghost use Rattle.event_queue.specs.Listening.{HandsOut, dropped_by, has_client, listening_of, taken_by};
ghost use Rattle.core_steps.specs.Rooms.{HasEnd, IsKept};

use core_log::Record;
use event_queue::Taken;
use std::alloc::Global;
use virt_types::NoMemory;

/// Hands out all that pends for a client; or its loss, once, where nothing does and more came than was kept.
/// The number of a registration whose loss was handed out is free. Where there is no memory nothing changes.
pub fn take_events(kept: &mut Record, alloc: Global, client: u32) -> Result<Taken, NoMemory>
    requires registered { has_client kept.old.listeners client ≡ true }
    ensures given { IfOk result (λ taken. HandsOut (listening_of kept.old.listeners client) taken) }
    ensures ok { OnOk result (kept.new ≡ record kept.old { listeners = taken_by kept.old.listeners client }) }
    ensures err { OnErr result (kept.new ≡ kept.old) }
    ensures kept { (held : List HeldEvent) → (ears : Option LentEars) → (rooms : ℕ) → IsKept kept.old held ears rooms → IsKept kept.new held ears rooms }
    ensures ends { (rooms : ℕ) → HasEnd kept.old rooms → HasEnd kept.new rooms }
{
    kept.take_events(alloc, client)
}

/// Lets go of all that pends for a client, and then of a loss that is due. It takes no memory.
pub fn drop_events(kept: &mut Record, client: u32)
    ensures dropped { kept.new ≡ record kept.old { listeners = dropped_by kept.old.listeners client } }
    ensures kept { (held : List HeldEvent) → (ears : Option LentEars) → (rooms : ℕ) → IsKept kept.old held ears rooms → IsKept kept.new held ears rooms }
    ensures ends { (rooms : ℕ) → HasEnd kept.old rooms → HasEnd kept.new rooms }
{
    kept.drop_events(client);
}
