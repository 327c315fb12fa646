// What a call does in one turn until it is admitted.
ghost use Rattle.std.specs.Prelude.{◌≡◌, ◌<◌, ◌^◌, None, Some};
ghost use Rattle.domain_core.specs.Celled.{cell_in};
ghost use Rattle.domain_obj.specs.Attempting.{Attempts, Tries, killed_at_first};
ghost use Rattle.domain_obj.specs.Looking.{MayLook, first_after};
ghost use Rattle.domain_spec.specs.Call.{begins, takes_up};
ghost use Rattle.domain_spec.specs.Kept.{looks_of};

use crate::{DomainTurn, end_long_chapter, give_up_in, look_in};
use domain_core::{Look, Ticket};
use domain_spec::First;
use job_rules::JobRecord;
use monitor_link::Guests;
use std::alloc::Global;
use virt_types::{Ask, Call, Reply, Who};

/// How many looks, each in a turn, are enough before a call gives up.
pub const ENOUGH: u32 = 30;

/// What became of a call in a turn in which it looked.
#[derive(Drop)]
pub enum Attempt<G: Guests> {
    /// It was admitted, and is done; its caller is told this.
    Done(Reply),
    /// It was admitted, and asks this.
    Away(Ticket<G>, Ask),
    /// Its job is excluded, and it waits; this boot is live.
    Waits(Option<u64>),
    /// Its job is excluded by this, and it looked often enough: it is refused.
    GaveUp(JobRecord),
    /// Its job is excluded, and so many others wait that it is refused.
    WaitersFull,
    /// There was no memory for it, or for the next chapter.
    NoMemory,
}

/// The boot that a call carries which was excluded when this one was live: a Destroy keeps that of its first look.
pub fn kept_first(call: &Call, first: First, boot: Option<u64>) -> First
    ensures { result ≡ first_after first call.now boot }
{
    match first {
        First::Boot(_) => first,
        First::Now => match call {
            Call::Destroy => First::Boot(boot),
            _ => First::Now,
        },
    }
}

// A Destroy that is excluded at its first look ends the guest that is there, without asking it. It may wait for the guest.
fn kill_first<G: Guests>(turn: &mut DomainTurn<G>, who: Who, call: &Call, looks: u32)
    requires excluded { turn.old.value.core.excluded ≡ Some (record { who = who; call = call.now }) }
    requires looks { looks ≡ looks_of (cell_in turn.old.value).queue.callers who }
    ensures value { turn.new.value ≡ killed_at_first call.now looks turn.old.value }
    ensures same { turn.new ≡ record turn.old { value = turn.new.value } }
{
    match call {
        Call::Destroy => {
            if looks == 1 {
                turn.value().kill(who);
            }
        }
        _ => {}
    }
}

// It looks, and where it is excluded, and both its turns, with this one, and its looks are enough, gives up.
fn look_or_give_up<G: Guests>(
    turn: &mut DomainTurn<G>,
    alloc: Global,
    who: Who,
    call: &Call,
    first: First,
    turns: u32,
) -> Attempt<G>
    requires may { MayLook turn.old.pass.number who call.now first turn.old.value }
    requires begins { begins call.now ≡ None }
    requires takes { takes_up call.now ≡ None }
    ensures attempts { Attempts turn.old.pass.number who call.now first turns turn.old.value turn.new.value result }
    ensures same { turn.new ≡ record turn.old { value = turn.new.value } }
{
    match look_in(turn, alloc, who, call, first) {
        Look::Done(reply) => Attempt::Done(reply),
        Look::Away(ticket, asked) => Attempt::Away(ticket, asked),
        Look::Excluded { held, boot, looks } => {
            if turns >= ENOUGH && looks >= ENOUGH {
                give_up_in(turn, alloc, who, call);
                return Attempt::GaveUp(held);
            }
            kill_first(turn, who, call, looks);
            Attempt::Waits(boot)
        }
        Look::WaitersFull(_) => Attempt::WaitersFull,
        Look::NoMemory => Attempt::NoMemory,
    }
}

/// A long chapter ends, and then the call looks; where it is excluded it gives up, if both its turns, with this one, and its
/// looks are enough.
pub fn attempt_in<G: Guests>(
    turn: &mut DomainTurn<G>,
    alloc: Global,
    who: Who,
    call: &Call,
    first: First,
    turns: u32,
) -> Attempt<G>
    requires may { MayLook turn.old.pass.number who call.now first turn.old.value }
    requires begins { begins call.now ≡ None }
    requires takes { takes_up call.now ≡ None }
    requires chapter { turn.old.value.core.turning.chapter < 2 ^ 62 }
    ensures tries { Tries turn.old.pass.number who call.now first turns turn.old.value turn.new.value result }
    ensures same { turn.new ≡ record turn.old { value = turn.new.value } }
{
    match end_long_chapter(turn, alloc, who) {
        Ok(()) => look_or_give_up(turn, alloc, who, call, first, turns),
        Err(_) => Attempt::NoMemory,
    }
}
