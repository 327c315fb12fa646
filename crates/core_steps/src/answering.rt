// The ask that the open call made last is answered.
ghost use Rattle.std.specs.Prelude.{◌≡◌, ◌≤◌, ◌+◌, None, false, length};
ghost use Rattle.std.specs.Vec.{vec_len};
ghost use Rattle.domain_spec.specs.Asks.{is_ended_answer};
ghost use Rattle.core_log.specs.Record.{force_of};
ghost use Rattle.core_steps.specs.Answering.{Answers, IsNumbered, LeavesRooms, MayBeAnswered};
ghost use Rattle.core_steps.specs.Ending.{EndsCarried, EndsFirst, boot_of};
ghost use Rattle.core_steps.specs.Rooms.{marks_needed};

use crate::applying::apply_all;
use crate::held::{HeldEvent, OneRoom};
use core_log::{Back, Record};
use core_rules::is_live;
use history_spec::Stamp;
use virt_types::{Answer, EndReason};

// The end of this boot is marked and told, where it is live.
fn end_boot(kept: &mut Record, rooms: &mut Vec<OneRoom>, boot: Option<u64>, why: EndReason)
    requires marks { 1 ≤ kept.old.spare }
    requires rooms { 1 ≤ vec_len rooms.old }
    ensures ends { EndsCarried boot why kept.old kept.new }
    ensures marks { kept.old.spare ≤ kept.new.spare + 1 }
    ensures rooms { (vec_len rooms.old ≤ vec_len rooms.new + 1) × (vec_len rooms.new ≤ vec_len rooms.old) }
    ensures balance { kept.old.spare + vec_len rooms.new ≤ kept.new.spare + vec_len rooms.old }
{
    match boot {
        None => {}
        Some(boot) => {
            if is_live(kept.state(), boot) {
                match rooms.pop() {
                    Some(room) => kept.exit(boot, why, room.into_told()),
                    None => unreachable!(),
                }
            }
        }
    }
}

// The boot that the open call carries.
fn boot_carried(kept: &Record) -> Option<u64>
    ensures { result ≡ boot_of (force_of kept.now).job }
{
    match kept.job() {
        None => None,
        Some(job) => job.boot(),
    }
}

/// An answer that the boot of the open call has ended marks its end, where it is live.
pub fn end_first(kept: &mut Record, rooms: &mut Vec<OneRoom>, answer: &Answer)
    requires marks { 1 ≤ kept.old.spare }
    requires rooms { 1 ≤ vec_len rooms.old }
    ensures ends { EndsFirst answer.now kept.old kept.new }
    ensures balance { kept.old.spare + vec_len rooms.new ≤ kept.new.spare + vec_len rooms.old }
    ensures rooms { (vec_len rooms.old ≤ vec_len rooms.new + 1) × (vec_len rooms.new ≤ vec_len rooms.old) }
    ensures same { is_ended_answer answer.now ≡ false → vec_len rooms.new ≡ vec_len rooms.old }
{
    match answer {
        Answer::Ended(why) => {
            let boot = boot_carried(kept);
            end_boot(kept, rooms, boot, *why);
        }
        _ => {}
    }
}

/// The ask is answered so: the end of the boot is marked where the answer says it, and the call, or the phase, is
/// done or asks on. Once it is done the held events apply.
pub fn back(
    kept: &mut Record,
    rooms: &mut Vec<OneRoom>,
    held: &[HeldEvent],
    by: Stamp,
    answer: Answer,
) -> Back
    requires away { IsNumbered (force_of kept.old).job by.number }
    requires may { MayBeAnswered (force_of kept.old) (force_of kept.old).job kept.old.course answer }
    requires marks { 2 + vec_len rooms.old ≤ kept.old.spare }
    requires rooms { length held.now + 1 ≤ vec_len rooms.old }
    ensures answers { Answers by.number kept.old.course answer held.now kept.old kept.new result }
    ensures balance { kept.old.spare + (marks_needed kept.new.course + vec_len rooms.new) ≤ kept.new.spare + (2 + vec_len rooms.old) }
    ensures rooms { vec_len rooms.new ≤ vec_len rooms.old }
    ensures left { LeavesRooms result held.now (vec_len rooms.old) (vec_len rooms.new) }
{
    kept.is_away();
    end_first(kept, rooms, &answer);
    kept.is_away();
    match kept.back(by, answer) {
        Back::Done(reply) => {
            kept.is_away();
            kept.state();
            apply_all(kept, rooms, held);
            Back::Done(reply)
        }
        Back::Phased(step) => {
            kept.is_away();
            kept.state();
            apply_all(kept, rooms, held);
            Back::Phased(step)
        }
        Back::Away(ask) => {
            kept.is_away();
            Back::Away(ask)
        }
    }
}
