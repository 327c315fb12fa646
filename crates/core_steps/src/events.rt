// A guest did something by itself, as its ears told.
ghost use Rattle.std.specs.Prelude.{◌≡◌, ◌≤◌, ◌<◌, ◌+◌, ◌++◌, ◌∷◌, [], length, nat_lt, not, is_some, if◌then◌else◌};
ghost use Rattle.std.specs.Vec.{vec_capacity, vec_len};
ghost use Rattle.domain_spec.specs.Reading.{is_live};
ghost use Rattle.core_log.specs.Record.{force_of};
ghost use Rattle.core_steps.specs.Rooms.{HasEnd, IsKept, rooms_lent};
ghost use Rattle.core_steps.specs.Guests.{AreUntold, Happens, applies_now, ears_told, held_with, one_if};

use crate::ears::{LentEars, tell};
use crate::ends::take_room;
use crate::{HeldEvent, OneRoom};
use core_log::Record;
use core_rules::is_live;
use virt_types::GuestEvent;

/// How many events of a guest are held at most.
pub const MOST_HELD: usize = 64;

// Whether no call is open.
fn is_free(kept: &Record) -> bool
    ensures { result ≡ not (is_some (force_of kept.now).job) }
{
    kept.job().is_none()
}

// An event is held, unless so many are that no more can be.
fn hold(held: &mut Vec<HeldEvent>, boot: u64, event: GuestEvent)
    requires { vec_len held.old < vec_capacity held.old }
    ensures items { held.new.items ≡ (if nat_lt (length held.old.items) 64 then held.old.items ++ record { boot = boot; event = event } ∷ [] else held.old.items) }
    ensures capacity { vec_capacity held.new ≡ vec_capacity held.old }
{
    if held.len() < MOST_HELD {
        held.push_reserved(HeldEvent { boot, event });
    }
}

/// A guest did this, as the ears told that are out. An event of a boot that is not live is dropped. Another
/// applies where no call is open; else it is held until none is. It takes no memory: it uses the room that was
/// set aside for these ears, or leaves it to the event that is held. The answer is false where 64 are held.
#[tactic(auto, using(crate::proofs::Keeping::event_keeps))]
pub fn event(
    kept: &mut Record,
    held: &mut Vec<HeldEvent>,
    rooms: &mut Vec<OneRoom>,
    ears: &mut Option<LentEars>,
    boot: u64,
    event: GuestEvent,
) -> bool
    requires ears { AreUntold ears.old boot }
    requires kept { IsKept kept.old held.old.items ears.old (vec_len rooms.old) }
    requires places { vec_len held.old + rooms_lent ears.old ≤ vec_capacity held.old }
    ensures result { result ≡ nat_lt (vec_len held.old) 64 }
    ensures happens { Happens (force_of kept.old).job (record { boot = boot; event = event }) kept.old kept.new }
    ensures course { kept.new.course ≡ kept.old.course }
    ensures held { held.new.items ≡ held_with (force_of kept.old) (force_of kept.old).job (record { boot = boot; event = event }) held.old.items }
    ensures ears { ears.new ≡ ears_told ears.old }
    ensures spare { kept.new.spare + one_if (applies_now (force_of kept.old) (force_of kept.old).job boot) ≡ kept.old.spare }
    ensures rooms { vec_len rooms.new + one_if (applies_now (force_of kept.old) (force_of kept.old).job boot) ≡ vec_len rooms.old }
    ensures places { vec_len held.new + rooms_lent ears.new ≤ vec_capacity held.new }
    ensures kept { IsKept kept.new held.new.items ears.new (vec_len rooms.new) }
    ensures ends { HasEnd kept.old (vec_len rooms.old) → HasEnd kept.new (vec_len rooms.new) }
{
    let can_hold = held.len() < MOST_HELD;
    tell(ears);
    if is_live(kept.state(), boot) {
        if is_free(kept) {
            kept.event(boot, event, take_room(rooms));
        } else {
            hold(held, boot, event);
        }
    }
    can_hold
}
