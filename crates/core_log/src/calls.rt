// The turns of a call, with what listeners hear of them.
ghost use Rattle.std.specs.Prelude.{◌≡◌, ◌≤◌, ◌<◌, ◌+◌, ◌∷◌, [], None};
ghost use Rattle.domain_spec.specs.Call.{begins, job_of, takes_up};
ghost use Rattle.domain_spec.specs.Legal.{IsLawful};
ghost use Rattle.domain_spec.specs.declared.mark.Mark.TheVariants as mark;
ghost use Rattle.core_flight.specs.Ledger.{MayAnswer, now_in};
ghost use Rattle.event_queue.specs.Listening.{registrations};
ghost use Rattle.core_log.specs.Record.{GoesBack, HasMarked, IsHeld, LetsIn, StaysAway, open_ends, recorded};

use crate::telling::{settled, tell};
use core_flight::{Back, Entry, Ledger};
use domain_spec::HeldJobs;
use event_queue::Listeners;
use history_spec::Stamp;
use std::alloc::Global;
use virt_types::{Answer, Boxed, Call, RefusalCode, Who};

/// A call that was admitted is let in.
pub fn let_in(
    ledger: &mut Ledger,
    listeners: &mut Listeners,
    alloc: Global,
    by: Stamp,
    who: Who,
    call: &Call,
    boot: Option<u64>,
) -> Entry
    requires held { IsHeld ledger.old listeners.old.listeners }
    requires room { 3 + open_ends (registrations listeners.old.listeners) ≤ ledger.old.spare }
    requires begins { begins call.now ≡ None }
    requires takes { takes_up call.now ≡ None }
    requires lawful { IsLawful (now_in ledger.old) (mark.Admit by.number who (job_of call.now) call.now boot) }
    ensures entry { LetsIn by.number who call.now boot (recorded ledger.old listeners.old.listeners) (recorded ledger.new listeners.new.listeners) result }
    ensures held { IsHeld ledger.new listeners.new.listeners }
    ensures spare { (recorded ledger.old listeners.old.listeners).spare ≤ (recorded ledger.new listeners.new.listeners).spare + 3 }
{
    match ledger.let_in(alloc, by, who, call, boot) {
        Entry::Done(reply) => {
            settled(ledger);
            tell(ledger, listeners);
            Entry::Done(reply)
        }
        Entry::Away(ask) => {
            settled(ledger);
            Entry::Away(ask)
        }
        Entry::NoMemory => Entry::NoMemory,
    }
}

/// The ask that the call or the phase made last is answered so.
pub fn back(ledger: &mut Ledger, listeners: &mut Listeners, by: Stamp, answer: Answer) -> Back
    requires held { IsHeld ledger.old listeners.old.listeners }
    requires room { 2 + open_ends (registrations listeners.old.listeners) ≤ ledger.old.spare }
    requires may { MayAnswer (now_in ledger.old) (now_in ledger.old).job ledger.old.course by.number answer }
    ensures back { GoesBack by.number ledger.old.course answer (recorded ledger.old listeners.old.listeners) (recorded ledger.new listeners.new.listeners) result }
    ensures held { IsHeld ledger.new listeners.new.listeners }
    ensures spare { (recorded ledger.old listeners.old.listeners).spare ≤ (recorded ledger.new listeners.new.listeners).spare + 2 }
    ensures stays { StaysAway (recorded ledger.old listeners.old.listeners) (recorded ledger.new listeners.new.listeners) result }
{
    match ledger.back(by, answer) {
        Back::Done(reply) => {
            settled(ledger);
            tell(ledger, listeners);
            Back::Done(reply)
        }
        Back::Away(ask) => {
            settled(ledger);
            Back::Away(ask)
        }
        Back::Phased(step) => {
            settled(ledger);
            tell(ledger, listeners);
            Back::Phased(step)
        }
    }
}

/// A call is turned away, since its job is excluded. Listeners hear nothing of it.
pub fn refuse(
    ledger: &mut Ledger,
    listeners: &Listeners,
    by: Stamp,
    who: Who,
    call: Boxed<Call>,
    code: RefusalCode,
    held: HeldJobs,
)
    requires held { IsHeld ledger.old listeners.now.listeners }
    requires room { 1 + open_ends (registrations listeners.now.listeners) ≤ ledger.old.spare }
    requires lawful { IsLawful (now_in ledger.old) (mark.Refused by.number who call code held) }
    ensures marked { HasMarked (recorded ledger.old listeners.now.listeners) (recorded ledger.new listeners.now.listeners) (mark.Refused by.number who call code held ∷ []) }
    ensures course { ledger.new.course ≡ ledger.old.course }
    ensures held { IsHeld ledger.new listeners.now.listeners }
    ensures spare { ledger.new.spare + 1 ≡ ledger.old.spare }
{
    let _ = listeners.as_slice();
    ledger.refuse(by, who, call, code, held);
    settled(ledger);
}
