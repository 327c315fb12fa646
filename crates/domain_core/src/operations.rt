// The turns of operations.
ghost use Rattle.std.specs.Prelude.{◌≡◌, ◌≤◌, None, Some, option_map};
ghost use Rattle.domain_spec.specs.CanTake.{HasNoneOpen};
ghost use Rattle.domain_spec.specs.Cell.{share_of, standing_of};
ghost use Rattle.domain_core.specs.Core.{excluded_so, named};
ghost use Rattle.domain_core.specs.Entering.{EntersSo, LooksFor, Operates};
ghost use Rattle.domain_core.specs.Shares.{IsFree};
ghost use Rattle.core_steps.specs.OfRecord.{force_of};
ghost use Rattle.core_steps.specs.Refusing.{IsSetAside};
ghost use Rattle.core_steps.specs.Rooms.{HasEnd};
ghost use Rattle.core_steps.specs.OperationEnding.{CanEnd, Ends};
ghost use Rattle.core_steps.specs.Phasing.{IsDue, Phases};
ghost use Rattle.core_step_laws.specs.Queued.{queue_by};
ghost use Rattle.core_step_laws.specs.Shares.{KeepsOthers};

use crate::looking::keep_refusal;
use crate::turns::{DomainTurns, facts};
use core_steps::{
    OperationLook, PhaseLook, Queue, Record, Refusable, begin_op, end_op, phase, rooms_lent,
    take_up, takes_up,
};
use history_spec::Stamp;
use std::alloc::Global;
use virt_types::{Call, NoMemory, Reply, Who};

// A call looks that begins an operation, or takes one up.
fn look_for(
    kept: &mut Record,
    queue: &mut Queue,
    rooms: usize,
    alloc: Global,
    by: Stamp,
    who: Who,
    call: &Call,
) -> OperationLook
    requires few { rooms ≤ 128 }
    requires ends { HasEnd kept.old rooms }
    requires operates { Operates call.now }
    requires none_open { HasNoneOpen (force_of kept.old) by.number }
    ensures looks { EntersSo by.number who call.now kept.old kept.new queue.old queue.new result }
    ensures ends { HasEnd kept.new rooms }
{
    match takes_up(call) {
        Some(_) => take_up(kept, queue, rooms, alloc, by, who, call),
        None => begin_op(kept, queue, rooms, alloc, by, who, call),
    }
}

// The same. Where it is excluded, its refusal is set aside.
#[tactic(auto, using(crate::proofs::Begins::still_enters_so, crate::proofs::Begins::none_enters_so, crate::proofs::Begins::enters_excluded))]
fn enter_on(
    kept: &mut Record,
    queue: &mut Queue,
    excluded: &mut Option<Refusable>,
    rooms: usize,
    alloc: Global,
    by: Stamp,
    who: Who,
    call: &Call,
) -> OperationLook
    requires few { rooms ≤ 128 }
    requires ends { HasEnd kept.old rooms }
    requires operates { Operates call.now }
    requires none_open { HasNoneOpen (force_of kept.old) by.number }
    ensures looks { EntersSo by.number who call.now kept.old kept.new queue.old queue.new result }
    ensures ends { HasEnd kept.new rooms }
    ensures set { IsSetAside kept.new queue.new rooms excluded.new }
    ensures excluded { option_map named excluded.new ≡ excluded_so who call.now result }
{
    *excluded = None;
    match look_for(kept, queue, rooms, alloc, by.again(), who, call) {
        OperationLook::Excluded { held, boot, looks } => {
            match keep_refusal(kept, queue, rooms, alloc, by, who, call) {
                Ok(refusable) => {
                    *excluded = Some(refusable);
                    OperationLook::Excluded { held, boot, looks }
                }
                Err(NoMemory) => OperationLook::NoMemory,
            }
        }
        OperationLook::Begun => OperationLook::Begun,
        OperationLook::Done(reply) => OperationLook::Done(reply),
        OperationLook::WaitersFull(waiting) => OperationLook::WaitersFull(waiting),
        OperationLook::NoMemory => OperationLook::NoMemory,
    }
}

impl DomainTurns {
    /// A call looks that begins an operation, or takes one up that rests: where the job table lets it in, the operation goes
    /// on for it, or it is refused; else it waits, or may not, since 32 others do.
    #[tactic(auto, using(crate::proofs::Operating::enter_keeps))]
    pub fn enter_op(&mut self, alloc: Global, by: Stamp, who: Who, call: &Call) -> OperationLook
        requires free { IsFree (share_of self.old.turning.cell by.number) who }
        requires operates { Operates call.now }
        ensures looks { LooksFor by.number who call.now self.old.turning self.new.turning result }
        ensures queue { self.new.turning.cell.queue ≡ queue_by result self.old.turning.cell.queue by.number who }
        ensures others { KeepsOthers by.number self.old.turning.cell self.new.turning.cell }
        ensures excluded { self.new.excluded ≡ excluded_so who call.now result }
    {
        facts(&self.kept);
        let looked = enter_on(
            &mut self.kept,
            &mut self.queue,
            &mut self.excluded,
            self.rooms.len(),
            alloc,
            by,
            who,
            call,
        );
        facts(&self.kept);
        looked
    }

    /// The due phase of the operation that this caller has open: it is admitted where no normal job is open, and else
    /// is excluded and leaves nothing.
    pub fn phase(&mut self, alloc: Global, by: Stamp, who: Who) -> PhaseLook
        requires due { IsDue (standing_of self.old.turning.cell).operation by.number who }
        ensures phases { Phases by.number who self.old.turning self.new.turning result }
        ensures others { KeepsOthers by.number self.old.turning.cell self.new.turning.cell }
        ensures excluded { self.new.excluded ≡ None }
    {
        facts(&self.kept);
        self.excluded = None;
        let lent = rooms_lent(&self.ears);
        let looked = phase(&mut self.kept, &mut self.rooms, lent, alloc, by, who);
        facts(&self.kept);
        looked
    }

    /// The operation that this caller has open, and that is over, ends with the reply of its last phase.
    pub fn end_op(&mut self, alloc: Global, by: Stamp, who: Who) -> Reply
        requires over { CanEnd (standing_of self.old.turning.cell).operation by.number who }
        ensures ends { Ends by.number who self.old.turning self.new.turning result }
        ensures others { KeepsOthers by.number self.old.turning.cell self.new.turning.cell }
        ensures excluded { self.new.excluded ≡ None }
    {
        facts(&self.kept);
        self.excluded = None;
        let reply = end_op(&mut self.kept, alloc, by, who);
        facts(&self.kept);
        reply
    }
}
