// What the caller of a call over a domain is told.
ghost use Rattle.std.specs.Prelude.{◌≡◌};
ghost use Rattle.domain_obj.specs.Replies.{TellsCalled, TellsOperated, TellsSpent, called_at, operated_at};

use crate::{Called, Operated};
use refusals::{ReplyRoom, no_memory};
use std::alloc::Global;
use virt_types::{Front, NoMemory, Reply};

// No ticket was left.
fn spent(alloc: Global) -> Reply
    ensures { TellsSpent result }
{
    match ReplyRoom::new(alloc) {
        Ok(room) => room.spent(),
        Err(NoMemory) => no_memory(alloc),
    }
}

/// What is told of a call, and the place of its last mark.
pub(crate) fn told_of_call(alloc: Global, called: Called) -> (Reply, Option<Front>)
    ensures reply { TellsCalled called result.0 }
    ensures place { result.1 ≡ called_at called }
{
    match called {
        Called::Done(reply, place) => (reply, Some(place)),
        Called::TimedOut(reply, place) => (reply, Some(place)),
        Called::WaitersFull(reply, place) => (reply, Some(place)),
        Called::NoMemory => (no_memory(alloc), None),
        Called::Spent => (spent(alloc), None),
        Called::SpentAway => (spent(alloc), None),
    }
}

/// What is told of a call that begins an operation or takes one up, and the place of its last mark.
pub(crate) fn told_of_operation(alloc: Global, operated: Operated) -> (Reply, Option<Front>)
    ensures reply { TellsOperated operated result.0 }
    ensures place { result.1 ≡ operated_at operated }
{
    match operated {
        Operated::Ended(reply, place) => (reply, Some(place)),
        Operated::Rests(reply, place) => (reply, Some(place)),
        Operated::Refused(reply, place) => (reply, Some(place)),
        Operated::TimedOut(reply, place) => (reply, Some(place)),
        Operated::WaitersFull(reply, place) => (reply, Some(place)),
        Operated::NoMemory => (no_memory(alloc), None),
        Operated::Spent => (spent(alloc), None),
        Operated::SpentAmid => (spent(alloc), None),
    }
}
