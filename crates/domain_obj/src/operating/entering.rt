// What a call does in one turn that begins an operation or takes one up, until it is admitted.
ghost use Rattle.std.specs.Prelude.{◌≡◌, ◌<◌, ◌^◌, ℕ};
ghost use Rattle.domain_obj.specs.Entering.{Enters, EntersAnew, LooksForIn, MayEnter, Operates};

use crate::attempting::ENOUGH;
use crate::{DomainTurn, end_long_chapter, give_up_in};
use domain_core::OperationLook;
use history_spec::Stamp;
use job_rules::JobRecord;
use monitor_link::Guests;
use std::alloc::Global;
use virt_types::{Call, Reply, Who};

/// What became of a call in a turn in which it looked whether its operation may begin, or be taken up.
#[derive(Drop)]
pub enum Entry {
    /// It was admitted, and a phase of its operation is due.
    Begun,
    /// It was admitted and refused; its caller is told this.
    Done(Reply),
    /// Its job is excluded, and it waits.
    Waits,
    /// Its job is excluded by this, and it looked often enough: it is refused.
    GaveUp(JobRecord),
    /// Its job is excluded, and so many others wait that it is refused.
    WaitersFull,
    /// There was no memory for it, or for the next chapter.
    NoMemory,
}

// A call looks whether its operation may begin, or be taken up, under this number.
fn look_as<G: Guests>(
    turn: &mut DomainTurn<G>,
    alloc: Global,
    who: Who,
    call: &Call,
) -> OperationLook
    ghost number: { ℕ }
    requires may { MayEnter number who turn.old.value }
    requires operates { Operates call.now }
    ensures looks { LooksForIn number who call.now turn.old.value turn.new.value result }
    ensures same { turn.new ≡ record turn.old { value = turn.new.value } }
{
    let by = Stamp::named();
    turn.value().enter_op(alloc, by, who, call)
}

// The same under the number of the pass that has the turn.
fn look_for<G: Guests>(
    turn: &mut DomainTurn<G>,
    alloc: Global,
    who: Who,
    call: &Call,
) -> OperationLook
    requires may { MayEnter turn.old.pass.number who turn.old.value }
    requires operates { Operates call.now }
    ensures looks { LooksForIn turn.old.pass.number who call.now turn.old.value turn.new.value result }
    ensures same { turn.new ≡ record turn.old { value = turn.new.value } }
{
    look_as(turn, alloc, who, call)
}

// It looks, and where it is excluded, and both its turns, with this one, and its looks are enough, gives up.
fn enter_or_give_up<G: Guests>(
    turn: &mut DomainTurn<G>,
    alloc: Global,
    who: Who,
    call: &Call,
    turns: u32,
) -> Entry
    requires may { MayEnter turn.old.pass.number who turn.old.value }
    requires operates { Operates call.now }
    ensures enters { Enters turn.old.pass.number who call.now turns turn.old.value turn.new.value result }
    ensures same { turn.new ≡ record turn.old { value = turn.new.value } }
{
    match look_for(turn, alloc, who, call) {
        OperationLook::Begun => Entry::Begun,
        OperationLook::Done(reply) => Entry::Done(reply),
        OperationLook::Excluded {
            held,
            boot: _,
            looks,
        } => {
            if turns >= ENOUGH && looks >= ENOUGH {
                give_up_in(turn, alloc, who, call);
                return Entry::GaveUp(held);
            }
            Entry::Waits
        }
        OperationLook::WaitersFull(_) => Entry::WaitersFull,
        OperationLook::NoMemory => Entry::NoMemory,
    }
}

/// A long chapter ends, and then the call looks whether its operation may begin, or be taken up; where it is excluded it
/// gives up, if both its turns, with this one, and its looks are enough.
pub fn enter_in<G: Guests>(
    turn: &mut DomainTurn<G>,
    alloc: Global,
    who: Who,
    call: &Call,
    turns: u32,
) -> Entry
    requires may { MayEnter turn.old.pass.number who turn.old.value }
    requires operates { Operates call.now }
    requires chapter { turn.old.value.core.turning.chapter < 2 ^ 62 }
    ensures enters { EntersAnew turn.old.pass.number who call.now turns turn.old.value turn.new.value result }
    ensures same { turn.new ≡ record turn.old { value = turn.new.value } }
{
    match end_long_chapter(turn, alloc, who) {
        Ok(()) => enter_or_give_up(turn, alloc, who, call, turns),
        Err(_) => Entry::NoMemory,
    }
}
