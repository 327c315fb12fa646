// The held events apply, in order.
ghost use Rattle.std.specs.Prelude.{◌≡◌, ◌≤◌, ◌+◌, None, length};
ghost use Rattle.std.specs.Vec.{vec_len};
ghost use Rattle.domain_spec.specs.Reading.{is_live};
ghost use Rattle.core_log.specs.Record.{force_of};
ghost use Rattle.core_steps.specs.Applying.{Applies, AppliesOne};

use crate::held::{HeldEvent, OneRoom};
use core_log::Record;
use core_rules::is_live;

// The event is marked and told where its boot is live.
fn apply(kept: &mut Record, rooms: &mut Vec<OneRoom>, held: &HeldEvent)
    requires free { (force_of kept.old).job ≡ None }
    requires marks { 1 ≤ kept.old.spare }
    requires rooms { 1 ≤ vec_len rooms.old }
    ensures applies { AppliesOne (is_live (force_of kept.old).state held.now.boot) held.now kept.old kept.new }
    ensures free { (force_of kept.new).job ≡ None }
    ensures marks { kept.old.spare ≤ kept.new.spare + 1 }
    ensures rooms { (vec_len rooms.old ≤ vec_len rooms.new + 1) × (vec_len rooms.new ≤ vec_len rooms.old) }
    ensures balance { kept.old.spare + vec_len rooms.new ≤ kept.new.spare + vec_len rooms.old }
{
    if is_live(kept.state(), held.boot) {
        match rooms.pop() {
            Some(room) => kept.event(held.boot, held.event, room.into_told()),
            None => unreachable!(),
        }
    }
}

/// These events apply, one after the other.
pub fn apply_all(kept: &mut Record, rooms: &mut Vec<OneRoom>, held: &[HeldEvent])
    requires free { (force_of kept.old).job ≡ None }
    requires marks { length held.now ≤ kept.old.spare }
    requires rooms { length held.now ≤ vec_len rooms.old }
    ensures applies { Applies held.now kept.old kept.new }
    ensures free { (force_of kept.new).job ≡ None }
    ensures balance { kept.old.spare + vec_len rooms.new ≤ kept.new.spare + vec_len rooms.old }
    ensures rooms { (vec_len rooms.old ≤ vec_len rooms.new + length held.now) × (vec_len rooms.new ≤ vec_len rooms.old) }
{
    match held {
        [] => {}
        [first, rest @ ..] => {
            apply(kept, rooms, first);
            apply_all(kept, rooms, rest);
        }
    }
}
