// A call looks; where it is excluded, what its refusal takes is set aside.
ghost use Rattle.std.specs.Prelude.{◌≡◌, ◌⊎◌, ◌≤◌, ◌+◌, IfOk, None, OnErr, OnOk, Some, option_map};
ghost use Rattle.std.specs.Vec.{vec_len};
ghost use Rattle.domain_spec.specs.Call.{begins, job_of, takes_up};
ghost use Rattle.domain_spec.specs.JobTable.{May};
ghost use Rattle.domain_spec.specs.Kept.{left_queue};
ghost use Rattle.domain_spec.specs.Legal.{IsLawful};
ghost use Rattle.domain_spec.specs.Open.{Excludes, job_held, operation_held};
ghost use Rattle.domain_spec.specs.Reading.{live_boot};
ghost use Rattle.domain_spec.specs.declared.mark.Mark.TheVariants as mark;
ghost use Rattle.domain_core.specs.Core.{excluded_by, named};
ghost use Rattle.core_steps.specs.OfRecord.{force_of};
ghost use Rattle.core_steps.specs.Looking.{LooksSo, boot_first, with_room};
ghost use Rattle.core_steps.specs.Refusing.{IsSetAside};
ghost use Rattle.core_steps.specs.Rooms.{HasEnd};

use core_steps::{Looked, OneRoom, Queue, Record, Refusable, leave, look, set_aside};
use domain_spec::First;
use history_spec::Stamp;
use std::alloc::Global;
use virt_types::{Call, NoMemory, Who};

/// What the refusal takes of a call that waits since it is excluded. Where there is no memory it waits no more.
#[tactic(auto, using(crate::proofs::Looks::end_stays))]
pub fn keep_refusal(
    kept: &mut Record,
    queue: &mut Queue,
    rooms: usize,
    alloc: Global,
    by: Stamp,
    who: Who,
    call: &Call,
) -> Result<Refusable, NoMemory>
    requires few { rooms ≤ 128 }
    requires excluded { Excludes (job_held (force_of kept.old).job) (operation_held (force_of kept.old).operation) call.now who }
    requires ends { HasEnd kept.old rooms }
    ensures same { kept.new ≡ with_room kept.old kept.new.spare }
    ensures ends { HasEnd kept.new rooms }
    ensures waits { OnOk result (queue.new ≡ queue.old) }
    ensures set { IfOk result (λ x. IsSetAside kept.new queue.new rooms (Some x)) }
    ensures caller { IfOk result (λ x. x.who ≡ who) }
    ensures call { IfOk result (λ x. x.call ≡ call.now) }
    ensures err { OnErr result (queue.new ≡ left_queue queue.old by.number who) }
{
    match set_aside(kept, queue, rooms, alloc, who, call) {
        Ok(refusable) => Ok(refusable),
        Err(NoMemory) => {
            leave(queue, by, who);
            Err(NoMemory)
        }
    }
}

/// A call looks. Where it is excluded, its refusal is set aside; any other turn drops the one that was.
#[tactic(auto, using(crate::proofs::Looks::still_excluded, crate::proofs::Looks::none_looked, crate::proofs::Looks::excluded_now))]
pub fn look_on(
    kept: &mut Record,
    queue: &mut Queue,
    rooms: &mut Vec<OneRoom>,
    excluded: &mut Option<Refusable>,
    lent: usize,
    alloc: Global,
    by: Stamp,
    who: Who,
    call: &Call,
    first: First,
) -> Looked
    requires few { vec_len rooms.old ≤ 128 }
    requires lent { (lent ≤ 1) × (lent ≤ vec_len rooms.old) }
    requires ends { HasEnd kept.old (vec_len rooms.old) }
    requires begins { begins call.now ≡ None }
    requires takes { takes_up call.now ≡ None }
    requires lawful { May (job_held (force_of kept.old).job) (operation_held (force_of kept.old).operation) (job_of call.now) who → IsLawful (force_of kept.old) (mark.Admit by.number who (job_of call.now) call.now (boot_first first (live_boot (force_of kept.old).state))) }
    ensures looks { LooksSo by.number who call.now (boot_first first (live_boot (force_of kept.old).state)) kept.old kept.new queue.old queue.new result }
    ensures ends { HasEnd kept.new (vec_len rooms.new) }
    ensures rooms { (vec_len rooms.old ≤ vec_len rooms.new) × (vec_len rooms.new ≤ 128) }
    ensures room { (1 + lent ≤ vec_len rooms.new) ⊎ (kept.new.course ≡ kept.old.course) }
    ensures set { IsSetAside kept.new queue.new (vec_len rooms.new) excluded.new }
    ensures excluded { option_map named excluded.new ≡ excluded_by who call.now result }
{
    *excluded = None;
    match look(
        kept,
        queue,
        rooms,
        lent,
        alloc,
        by.again(),
        who,
        call,
        first,
    ) {
        Looked::Excluded { held, boot, looks } => {
            match keep_refusal(kept, queue, rooms.len(), alloc, by, who, call) {
                Ok(refusable) => {
                    *excluded = Some(refusable);
                    Looked::Excluded { held, boot, looks }
                }
                Err(NoMemory) => Looked::NoMemory,
            }
        }
        Looked::Done(reply) => Looked::Done(reply),
        Looked::Away(ask) => Looked::Away(ask),
        Looked::WaitersFull(waiting) => Looked::WaitersFull(waiting),
        Looked::NoMemory => Looked::NoMemory,
    }
}
