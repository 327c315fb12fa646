// A call that is excluded is refused once it looked often enough.
ghost use Rattle.std.specs.Prelude.{◌≡◌, ◌≤◌, ◌+◌, IfOk, Some};
ghost use Rattle.domain_spec.specs.Open.{Excludes, job_held, operation_held};
ghost use Rattle.core_log.specs.Record.{force_of};
ghost use Rattle.core_steps.specs.Looking.{with_room};
ghost use Rattle.core_steps.specs.Refusing.{CanRefuse, GivesUp, IsSetAside};

use crate::jobs::jobs_held;
use crate::looking::leave;
use core_log::Record;
use domain_spec::HeldJobs;
use history_spec::Stamp;
use job_rules::Queue;
use std::alloc::Global;
use virt_types::{Boxed, Call, NoMemory, RefusalCode, Who, WhoList, both};

/// What the refusal of a call takes that was excluded, set aside in the turn in which it was.
#[derive(Drop)]
pub struct Refusable {
    /// Its caller.
    pub who: Who,
    /// The call.
    pub call: Boxed<Call>,
    /// Who waits.
    pub waiting: WhoList,
}

/// What the refusal takes of a call that is excluded and waits, and room for one mark more than is needed.
pub fn set_aside(
    kept: &mut Record,
    queue: &Queue,
    rooms: usize,
    alloc: Global,
    who: Who,
    call: &Call,
) -> Result<Refusable, NoMemory>
    requires few { rooms ≤ 128 }
    requires excluded { Excludes (job_held (force_of kept.old).job) (operation_held (force_of kept.old).operation) call.now who }
    ensures same { kept.new ≡ with_room kept.old kept.new.spare }
    ensures stays { kept.old.spare ≤ kept.new.spare }
    ensures set { IfOk result (λ x. IsSetAside kept.new queue.now rooms (Some x)) }
    ensures caller { IfOk result (λ x. x.who ≡ who) }
    ensures call { IfOk result (λ x. x.call ≡ call.now) }
{
    kept.reserve(4 + rooms)?;
    match both(Boxed::copy_of(alloc, call), queue.callers(alloc)) {
        Ok((call, waiting)) => Ok(Refusable { who, call, waiting }),
        Err(e) => Err(e),
    }
}

/// The call is refused, and waits no more. It takes no memory.
pub fn give_up(kept: &mut Record, queue: &mut Queue, by: Stamp, refusable: Refusable)
    requires can { CanRefuse kept.old queue.old refusable }
    requires room { 1 ≤ kept.old.spare }
    ensures given_up { GivesUp by.number refusable kept.old kept.new queue.old queue.new }
    ensures spare { kept.new.spare + 1 ≡ kept.old.spare }
{
    kept.state();
    let held = jobs_held(kept);
    let jobs = HeldJobs {
        active: held.active,
        op: held.op,
        waiting: refusable.waiting,
    };
    let who = refusable.who;
    kept.refuse(
        by.again(),
        who,
        refusable.call,
        RefusalCode::OperationTimeout,
        jobs,
    );
    leave(queue, by, who);
}
