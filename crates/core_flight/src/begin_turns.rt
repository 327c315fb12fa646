// The turns of calls that begin an operation, or take one up, over the chapter.
ghost use Rattle.std.specs.Prelude.{◌≡◌, ◌≤◌, ◌+◌, ◌∷◌, [], IfOk, None, OnErr, OnOk, true};
ghost use Rattle.domain_spec.specs.Call.{job_of};
ghost use Rattle.domain_spec.specs.Legal.{IsLawful};
ghost use Rattle.domain_spec.specs.Sequential.{goes_on_as_operation};
ghost use Rattle.domain_spec.specs.TakeUp.{rests_for, takes_it_up};
ghost use Rattle.domain_spec.specs.declared.mark.Mark.TheVariants as mark;
ghost use Rattle.core_plan.specs.Going.{first_course};
ghost use Rattle.core_flight.specs.BeginTurn.{AreCopies, IsRefusedNow};
ghost use Rattle.core_flight.specs.Ledger.{IsClosed, admitted, with_marks};
ghost use Rattle.core_flight.specs.Turn.{IsReady, force_in, shown};

use crate::away::Ready;
use crate::turns::{close, job_of};
use core_chapter::{Chapter, operation_held, takes_up};
use core_rules::meets_ended;
use domain_spec::HeldOperation;
use history_spec::Stamp;
use std::alloc::Global;
use virt_types::{Call, NoMemory, OpKind, Reply, TryCopy, Who, both};

/// A call that begins an operation, or takes one up, and is refused: it is let in, and done.
pub fn refuse(
    chapter: &mut Chapter,
    by: Stamp,
    who: Who,
    call: &Call,
    boot: Option<u64>,
    ready: Ready,
) -> Reply
    requires room { 3 ≤ chapter.old.spare }
    requires lost { (force_in chapter.old).lost ≡ None }
    requires lawful { IsLawful (force_in chapter.old) (mark.Admit by.number who (job_of call.now) call.now boot) }
    requires refused { IsRefusedNow (force_in chapter.old) call.now boot }
    requires ready { IsReady (force_in chapter.old).state call.now boot ready }
    ensures closed { IsClosed (admitted (shown chapter.old) by.number who call.now boot) by.number (first_course (force_in chapter.old).state call.now boot) (shown chapter.new) result }
    ensures none { (force_in chapter.new).job ≡ None }
    ensures spare { chapter.old.spare ≤ chapter.new.spare + 3 }
{
    let Ready { away, own, in_mark } = ready;
    chapter.admit(by.again(), who, job_of(call), own, in_mark, boot);
    close(chapter, by, away)
}

fn rests_for(wanted: Option<OpKind>, held: Option<HeldOperation>) -> bool
    ensures { result ≡ rests_for wanted held }
{
    match (wanted, held) {
        (Some(kind), Some(held)) => held.rests && held.kind.number() == kind.number(),
        _ => false,
    }
}

/// Whether the call takes up the operation that rests.
pub fn takes_it_up(chapter: &Chapter, call: &Call, boot: Option<u64>) -> bool
    ensures { result ≡ takes_it_up (force_in chapter.now) call.now boot }
{
    !meets_ended(chapter.state(), call, boot)
        && rests_for(takes_up(call), operation_held(chapter.operation()))
}

/// Copies of a call that takes an operation up: the open call's and its operation's, each with one for
/// the mark.
#[derive(Drop)]
pub struct Copies {
    pub own: Call,
    pub in_admit: Call,
    pub of_operation: Call,
    pub in_mark: Call,
}

/// Copies of the call.
pub fn copied(call: &Call) -> Result<Copies, NoMemory>
    ensures { IfOk result (AreCopies call.now) }
{
    match both(
        both(call.copy(), call.copy()),
        both(call.copy(), call.copy()),
    ) {
        Ok(((own, in_admit), (of_operation, in_mark))) => Ok(Copies {
            own,
            in_admit,
            of_operation,
            in_mark,
        }),
        Err(e) => Err(e),
    }
}

/// A call that takes up the operation that rests is let in, and does.
pub fn take_up(
    chapter: &mut Chapter,
    by: Stamp,
    who: Who,
    call: &Call,
    boot: Option<u64>,
    copies: Copies,
)
    requires room { 2 ≤ chapter.old.spare }
    requires lost { (force_in chapter.old).lost ≡ None }
    requires lawful { IsLawful (force_in chapter.old) (mark.Admit by.number who (job_of call.now) call.now boot) }
    requires takes { takes_it_up (force_in chapter.old) call.now boot ≡ true }
    requires copies { AreCopies call.now copies }
    ensures history { shown chapter.new ≡ with_marks (admitted (shown chapter.old) by.number who call.now boot) (mark.TakeUp by.number who call.now ∷ []) }
    ensures none { (force_in chapter.new).job ≡ None }
    ensures spare { chapter.new.spare + 2 ≡ chapter.old.spare }
{
    let Copies {
        own,
        in_admit,
        of_operation,
        in_mark,
    } = copies;
    chapter.admit(by.again(), who, job_of(call), own, in_admit, boot);
    chapter.take_up(by, who, of_operation, in_mark);
}

/// A call that begins an operation is let in, and does. Where there is no memory nothing changes.
pub fn begin(
    chapter: &mut Chapter,
    alloc: Global,
    by: Stamp,
    who: Who,
    call: &Call,
    boot: Option<u64>,
) -> Result<(), NoMemory>
    requires room { 2 ≤ chapter.old.spare }
    requires lost { (force_in chapter.old).lost ≡ None }
    requires lawful { IsLawful (force_in chapter.old) (mark.Admit by.number who (job_of call.now) call.now boot) }
    requires goes { goes_on_as_operation (force_in chapter.old).state call.now boot ≡ true }
    ensures history { OnOk result (shown chapter.new ≡ with_marks (admitted (shown chapter.old) by.number who call.now boot) (mark.Start by.number who call.now boot ∷ [])) }
    ensures none { OnOk result ((force_in chapter.new).job ≡ None) }
    ensures spare { OnOk result (chapter.new.spare + 2 ≡ chapter.old.spare) }
    ensures err { OnErr result (chapter.new ≡ chapter.old) }
{
    chapter.begin(alloc, by.again(), by, who, job_of(call), call, boot)
}
