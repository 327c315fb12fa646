// A boot ended, as its ears told.
ghost use Rattle.std.specs.Prelude.{◌≡◌, ◌<◌, ◌+◌, ℕ, List, []};
ghost use Rattle.std.specs.Vec.{vec_len};
ghost use Rattle.domain_spec.specs.Cell.{HeldEvent as Held};
ghost use Rattle.domain_spec.specs.Reading.{is_live};
ghost use Rattle.core_log.specs.Record.{force_of};
ghost use Rattle.core_steps.specs.Rooms.{HasEnd, IsKept};
ghost use Rattle.core_steps.specs.Guests.{AreUntold, Exits, ears_told, one_if};

use crate::OneRoom;
use crate::ears::{LentEars, tell};
use core_log::Record;
use core_rules::is_live;
use virt_types::{EndReason, TransitionList};

// One of these rooms, which is used.
pub(crate) fn take_room(rooms: &mut Vec<OneRoom>) -> TransitionList
    requires { 0 < vec_len rooms.old }
    ensures list { result.list ≡ [] }
    ensures room { 0 < result.room }
    ensures rooms { vec_len rooms.new + 1 ≡ vec_len rooms.old }
{
    let last = rooms.len() - 1;
    rooms.remove(last).into_told()
}

/// A boot ended so, as the ears told that are out: where it is live that is marked, and its listeners hear it.
/// It takes no memory: it uses the room that was set aside for these ears. Events that are held stay so.
pub fn exit(
    kept: &mut Record,
    rooms: &mut Vec<OneRoom>,
    ears: &mut Option<LentEars>,
    boot: u64,
    why: EndReason,
)
    requires ears { AreUntold ears.old boot }
    requires spare { 0 < kept.old.spare }
    requires rooms { 0 < vec_len rooms.old }
    ensures exits { Exits boot why kept.old kept.new }
    ensures course { kept.new.course ≡ kept.old.course }
    ensures ears { ears.new ≡ ears_told ears.old }
    ensures spare { kept.new.spare + one_if (is_live (force_of kept.old).state boot) ≡ kept.old.spare }
    ensures rooms { vec_len rooms.new + one_if (is_live (force_of kept.old).state boot) ≡ vec_len rooms.old }
    ensures kept { (held : List Held) → IsKept kept.old held ears.old (vec_len rooms.old) → IsKept kept.new held ears.new (vec_len rooms.new) }
    ensures ends { HasEnd kept.old (vec_len rooms.old) → HasEnd kept.new (vec_len rooms.new) }
{
    tell(ears);
    if is_live(kept.state(), boot) {
        kept.exit(boot, why, take_room(rooms));
    }
}
