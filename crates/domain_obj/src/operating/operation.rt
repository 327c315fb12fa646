// A call that begins an operation or takes one up, from its first look to its end.
ghost use Rattle.std.specs.Prelude.{◌≡◌};
ghost use Rattle.domain_obj.specs.Running.{IsReady};
ghost use Rattle.domain_obj.specs.Entering.{Operates};
ghost use Rattle.domain_obj.specs.Operated.{HasOperated, operated_by};

use crate::operating::entered::enter_once;
use crate::operating::entering::Entry;
use crate::operating::phases::{Over, run_phases};
use crate::{Desk, DomainPass};
use domain_core::DomainCell;
use job_rules::JobRecord;
use monitor_link::Guests;
use refusals::ReplyRoom;
use std::alloc::Global;
use std::sync::Wait;
use turn_cell::TurnCell;
use virt_types::{Call, Front, RefusalCode, Reply, Who};

/// What became of a call that begins an operation or takes one up.
#[derive(Drop)]
pub enum Operated {
    /// Its operation ended, and its caller is told this; its End is here.
    Ended(Reply, Front),
    /// Its operation rests, and its caller is told this; its last Phase is here.
    Rests(Reply, Front),
    /// It was admitted and refused; its Done is here.
    Refused(Reply, Front),
    /// Thirty of its looks or more found its job excluded, and it is refused; its Refused is here.
    TimedOut(Reply, Front),
    /// Its job is excluded, and so many others wait that it is refused; its Refused is here.
    WaitersFull(Reply, Front),
    /// There was no memory for it, and nothing is left of it.
    NoMemory,
    /// No ticket was left before it was admitted.
    Spent,
    /// No ticket was left for a phase of its operation, or for its end: the operation stays open.
    SpentAmid,
}

// What became of the call whose operation came to this.
fn operated_as(over: Over) -> Operated
    ensures { result ≡ operated_by over }
{
    match over {
        Over::Ended(reply, place) => Operated::Ended(reply, place),
        Over::Rests(reply, place) => Operated::Rests(reply, place),
        Over::Spent => Operated::SpentAmid,
    }
}

// It takes turns until it is admitted or refused, with this room for a refusal; and then its operation goes on.
fn operate_in<G: Guests, D: Desk<G>, R: Wait>(
    rt: &R,
    cell: &TurnCell<DomainCell<G>>,
    alloc: Global,
    pass: DomainPass<G>,
    who: Who,
    call: &Call,
    room: ReplyRoom,
    desk: &mut D,
) -> (DomainPass<G>, Operated)
    requires own { pass.cell ≡ cell.now }
    requires ready { IsReady pass }
    requires operates { Operates call.now }
    ensures { HasOperated who call.now pass result.0 (D.report desk.old) (D.report desk.new) result.1 }
{
    let mut pass = pass;
    let mut turns: u32 = 0;
    for _ in rt.forever() {
        turns = turns.saturating_add(1);
        match enter_once(rt, cell, alloc, pass, who, call, turns) {
            Ok((after, entry, place)) => match entry {
                Entry::Waits => pass = cell.rest(rt, after),
                Entry::Begun => {
                    let (left, over) = run_phases(rt, cell, alloc, after, who, desk);
                    return (left, operated_as(over));
                }
                Entry::Done(reply) => return (after, Operated::Refused(reply, place)),
                Entry::GaveUp(held) => {
                    let reply = room.excluded(RefusalCode::OperationTimeout, &held);
                    return (after, Operated::TimedOut(reply, place));
                }
                Entry::WaitersFull => {
                    let reply = room.excluded(RefusalCode::TooManyWaiting, &JobRecord::new());
                    return (after, Operated::WaitersFull(reply, place));
                }
                Entry::NoMemory => return (after, Operated::NoMemory),
            },
            Err(after) => return (after, Operated::Spent),
        }
    }
    unreachable!()
}

/// A call that begins an operation or takes one up takes turns until it is admitted: where its job is excluded it rests and
/// looks again, and in the turn of its thirtieth look it gives up. Then its operation goes on phase after phase, until it
/// ends or rests; a phase that is excluded rests and looks again, without a limit. The desk is asked while the pass has no
/// turn. Before each look and each phase, in the same turn, a chapter ends that holds 4,096 marks.
pub fn run_operation<G: Guests, D: Desk<G>, R: Wait>(
    rt: &R,
    cell: &TurnCell<DomainCell<G>>,
    alloc: Global,
    pass: DomainPass<G>,
    who: Who,
    call: &Call,
    desk: &mut D,
) -> (DomainPass<G>, Operated)
    requires own { pass.cell ≡ cell.now }
    requires ready { IsReady pass }
    requires operates { Operates call.now }
    ensures { HasOperated who call.now pass result.0 (D.report desk.old) (D.report desk.new) result.1 }
{
    match ReplyRoom::new(alloc) {
        Ok(room) => operate_in(rt, cell, alloc, pass, who, call, room, desk),
        Err(_) => (pass, Operated::NoMemory),
    }
}
