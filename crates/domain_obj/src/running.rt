// A call from its first look to its end.
ghost use Rattle.std.specs.Prelude.{◌≡◌, None};
ghost use Rattle.domain_obj.specs.Running.{IsReady};
ghost use Rattle.domain_obj.specs.Called.{HasCalled};
ghost use Rattle.domain_spec.specs.Call.{begins, takes_up};

use crate::attempting::{Attempt, kept_first};
use crate::attempts::attempt_once;
use crate::ending::{Called, end_call};
use crate::{Desk, DomainPass};
use domain_core::DomainCell;
use domain_spec::First;
use job_rules::JobRecord;
use monitor_link::Guests;
use refusals::ReplyRoom;
use std::alloc::Global;
use std::sync::Wait;
use turn_cell::TurnCell;
use virt_types::{Call, RefusalCode, Who};

// It takes turns until it is admitted or refused, with this room for a refusal.
fn run_in<G: Guests, D: Desk<G>, R: Wait>(
    rt: &R,
    cell: &TurnCell<DomainCell<G>>,
    alloc: Global,
    pass: DomainPass<G>,
    who: Who,
    call: &Call,
    room: ReplyRoom,
    desk: &mut D,
) -> (DomainPass<G>, Called)
    requires own { pass.cell ≡ cell.now }
    requires ready { IsReady pass }
    requires begins { begins call.now ≡ None }
    requires takes { takes_up call.now ≡ None }
    ensures { HasCalled who call.now pass result.0 (D.report desk.old) (D.report desk.new) result.1 }
{
    let mut pass = pass;
    let mut first = First::Now;
    let mut turns: u32 = 0;
    for _ in rt.forever() {
        turns = turns.saturating_add(1);
        match attempt_once(rt, cell, alloc, pass, who, call, first, turns) {
            Ok((after, attempt, place)) => match attempt {
                Attempt::Waits(boot) => {
                    first = kept_first(call, first, boot);
                    pass = cell.rest(rt, after);
                }
                Attempt::Done(reply) => return (after, Called::Done(reply, place)),
                Attempt::Away(ticket, asked) => {
                    return end_call(rt, cell, alloc, after, ticket, asked, desk);
                }
                Attempt::GaveUp(held) => {
                    let reply = room.excluded(RefusalCode::OperationTimeout, &held);
                    return (after, Called::TimedOut(reply, place));
                }
                Attempt::WaitersFull => {
                    let reply = room.excluded(RefusalCode::TooManyWaiting, &JobRecord::new());
                    return (after, Called::WaitersFull(reply, place));
                }
                Attempt::NoMemory => return (after, Called::NoMemory),
            },
            Err(after) => return (after, Called::Spent),
        }
    }
    unreachable!()
}

/// A call takes turns until it is admitted: where its job is excluded it rests and looks again, and in the turn of its
/// thirtieth look it gives up. Once it is admitted the desk is asked, while the pass has no turn, until the call is done. It
/// neither begins an operation nor takes one up. Before each look, in the same turn, a chapter ends that holds 4,096 marks.
pub fn run_call<G: Guests, D: Desk<G>, R: Wait>(
    rt: &R,
    cell: &TurnCell<DomainCell<G>>,
    alloc: Global,
    pass: DomainPass<G>,
    who: Who,
    call: &Call,
    desk: &mut D,
) -> (DomainPass<G>, Called)
    requires own { pass.cell ≡ cell.now }
    requires ready { IsReady pass }
    requires begins { begins call.now ≡ None }
    requires takes { takes_up call.now ≡ None }
    ensures { HasCalled who call.now pass result.0 (D.report desk.old) (D.report desk.new) result.1 }
{
    match ReplyRoom::new(alloc) {
        Ok(room) => run_in(rt, cell, alloc, pass, who, call, room, desk),
        Err(_) => (pass, Called::NoMemory),
    }
}
