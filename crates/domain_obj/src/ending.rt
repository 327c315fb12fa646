// What becomes of a call, and how one ends that was admitted and asks.
ghost use Rattle.std.specs.Prelude.{◌≡◌, None, is_some};
ghost use Rattle.domain_obj.specs.Finishing.{IsAway};
ghost use Rattle.domain_obj.specs.Ending.{HasEnded};

use crate::{Desk, DomainPass, Finished, finish};
use domain_core::{DomainCell, Ticket};
use monitor_link::Guests;
use std::alloc::Global;
use std::sync::Wait;
use turn_cell::TurnCell;
use virt_types::{Ask, Front, Reply};

/// What became of a call.
#[derive(Drop)]
pub enum Called {
    /// It was admitted and done, and its caller is told this; its Done is here.
    Done(Reply, Front),
    /// Thirty of its looks or more found its job excluded, and it is refused; its Refused is here.
    TimedOut(Reply, Front),
    /// Its job is excluded, and so many others wait that it is refused; its Refused is here.
    WaitersFull(Reply, Front),
    /// There was no memory for it, and nothing is left of it.
    NoMemory,
    /// No ticket was left before it was admitted.
    Spent,
    /// No ticket was left for the answer to something that it asked.
    SpentAway,
}

/// The call that the pass has open asks until it is done.
pub fn end_call<G: Guests, D: Desk<G>, R: Wait>(
    rt: &R,
    cell: &TurnCell<DomainCell<G>>,
    alloc: Global,
    pass: DomainPass<G>,
    ticket: Ticket<G>,
    asked: Ask,
    desk: &mut D,
) -> (DomainPass<G>, Called)
    requires own { pass.cell ≡ cell.now }
    requires away { IsAway pass asked (is_some ticket.monitor) }
    requires no_operation { pass.share.kept.operation ≡ None }
    ensures { HasEnded pass result.0 (D.report desk.old) (D.report desk.new) result.1 }
{
    let (after, finished) = finish(rt, cell, alloc, pass, ticket, asked, desk);
    match finished {
        Finished::Done(reply, place) => (after, Called::Done(reply, place)),
        Finished::Spent => (after, Called::SpentAway),
        Finished::Phased(_, _) => unreachable!(),
    }
}
