// Who registers, takes what pends, and leaves.
ghost use Rattle.std.specs.Prelude.{◌≡◌, ◌≤◌, ◌+◌, ◌++◌, ◌∷◌, [], IfOk, OnErr, OnOk, false, true};
ghost use Rattle.domain_spec.specs.Registrations.{registrations_taken};
ghost use Rattle.domain_spec.specs.declared.mark.Mark.TheVariants as mark;
ghost use Rattle.event_queue.specs.Listening.{HandsOut, dropped_by, has_client, left_by, listening_of, new_listening, registrations, taken_by};
ghost use Rattle.core_log.specs.Record.{HasMarked, IsHeld, IsQuietOf, open_ends, recorded};

use crate::telling::settled;
use core_flight::Ledger;
use event_queue::{Listeners, Taken};
use history_spec::Stamp;
use std::alloc::Global;
use virt_types::NoMemory;

/// A client registers.
pub fn watch(
    ledger: &mut Ledger,
    listeners: &mut Listeners,
    alloc: Global,
    by: Stamp,
    client: u32,
) -> Result<(), NoMemory>
    requires held { IsHeld ledger.old listeners.old.listeners }
    requires room { 2 + open_ends (registrations listeners.old.listeners) ≤ ledger.old.spare }
    requires free { has_client listeners.old.listeners client ≡ false }
    ensures marked { OnOk result (HasMarked (recorded ledger.old listeners.old.listeners) (recorded ledger.new listeners.new.listeners) (mark.Watch by.number client ∷ [])) }
    ensures listeners { OnOk result (listeners.new.listeners ≡ listeners.old.listeners ++ new_listening by.number client ∷ []) }
    ensures course { ledger.new.course ≡ ledger.old.course }
    ensures held { IsHeld ledger.new listeners.new.listeners }
    ensures spare { OnOk result ((recorded ledger.new listeners.new.listeners).spare + 2 ≡ (recorded ledger.old listeners.old.listeners).spare) }
    ensures err { OnErr result ((ledger.new ≡ ledger.old) × (listeners.new.listeners ≡ listeners.old.listeners)) }
{
    match listeners.add(alloc, by.again(), client) {
        Ok(()) => {
            settled(ledger);
            ledger.watch(by, client);
            settled(ledger);
            Ok(())
        }
        Err(e) => {
            drop(by);
            Err(e)
        }
    }
}

/// A client ends its registration, for which nothing pends.
pub fn unwatch(ledger: &mut Ledger, listeners: &mut Listeners, by: Stamp, client: u32)
    requires held { IsHeld ledger.old listeners.old.listeners }
    requires quiet { IsQuietOf (listening_of listeners.old.listeners client) by.number }
    ensures marked { HasMarked (recorded ledger.old listeners.old.listeners) (recorded ledger.new listeners.new.listeners) (mark.Unwatch by.number client ∷ []) }
    ensures listeners { listeners.new.listeners ≡ left_by listeners.old.listeners client }
    ensures course { ledger.new.course ≡ ledger.old.course }
    ensures held { IsHeld ledger.new listeners.new.listeners }
    ensures spare { (recorded ledger.new listeners.new.listeners).spare ≡ (recorded ledger.old listeners.old.listeners).spare }
{
    settled(ledger);
    ledger.unwatch(by, client);
    settled(ledger);
    listeners.leave(client);
}

/// What a client is handed out.
pub fn take(
    ledger: &Ledger,
    listeners: &mut Listeners,
    alloc: Global,
    client: u32,
) -> Result<Taken, NoMemory>
    requires held { IsHeld ledger.now listeners.old.listeners }
    requires registered { has_client listeners.old.listeners client ≡ true }
    ensures given { IfOk result (λ taken. HandsOut (listening_of listeners.old.listeners client) taken) }
    ensures listeners { OnOk result (listeners.new.listeners ≡ taken_by listeners.old.listeners client) }
    ensures registrations { OnOk result (registrations listeners.new.listeners ≡ registrations_taken (registrations listeners.old.listeners) client) }
    ensures spare { (recorded ledger.now listeners.new.listeners).spare ≡ (recorded ledger.now listeners.old.listeners).spare }
    ensures held { IsHeld ledger.now listeners.new.listeners }
    ensures err { OnErr result (listeners.new.listeners ≡ listeners.old.listeners) }
{
    let _ = ledger;
    listeners.take(alloc, client)
}

/// Lets go of all that pends for a client, and then of a loss that is due.
pub fn drop_events(ledger: &Ledger, listeners: &mut Listeners, client: u32)
    requires held { IsHeld ledger.now listeners.old.listeners }
    ensures listeners { listeners.new.listeners ≡ dropped_by listeners.old.listeners client }
    ensures registrations { registrations listeners.new.listeners ≡ registrations_taken (registrations_taken (registrations listeners.old.listeners) client) client }
    ensures spare { (recorded ledger.now listeners.new.listeners).spare ≡ (recorded ledger.now listeners.old.listeners).spare }
    ensures held { IsHeld ledger.now listeners.new.listeners }
{
    let _ = ledger;
    listeners.drop_events(client);
}
