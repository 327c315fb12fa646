// What a guest does by itself, with what listeners hear of it.
ghost use Rattle.std.specs.Prelude.{◌≡◌, ◌≤◌, ◌<◌, ◌+◌, ◌∷◌, [], None, true};
ghost use Rattle.domain_spec.specs.Exit.{event_transitions, exit_transitions};
ghost use Rattle.domain_spec.specs.Reading.{is_live};
ghost use Rattle.domain_spec.specs.declared.mark.Mark.TheVariants as mark;
ghost use Rattle.core_flight.specs.Ledger.{now_in};
ghost use Rattle.event_queue.specs.Listening.{registrations};
ghost use Rattle.core_log.specs.Record.{IsHeld, Tells, open_ends, recorded};

use crate::telling::{settled, tell};
use core_flight::Ledger;
use event_queue::Listeners;
use virt_types::{EndReason, GuestEvent, TransitionList};

/// A boot ended so.
pub fn exit(
    ledger: &mut Ledger,
    listeners: &mut Listeners,
    boot: u64,
    why: EndReason,
    told: TransitionList,
)
    requires held { IsHeld ledger.old listeners.old.listeners }
    requires room { 1 + open_ends (registrations listeners.old.listeners) ≤ ledger.old.spare }
    requires told { (told.list ≡ []) × (0 < told.room) }
    requires live { is_live (now_in ledger.old).state boot ≡ true }
    ensures told { Tells (recorded ledger.old listeners.old.listeners) (recorded ledger.new listeners.new.listeners) (mark.Exit boot why (exit_transitions why) ∷ []) }
    ensures course { ledger.new.course ≡ ledger.old.course }
    ensures held { IsHeld ledger.new listeners.new.listeners }
    ensures spare { (recorded ledger.new listeners.new.listeners).spare + 1 ≡ (recorded ledger.old listeners.old.listeners).spare }
{
    ledger.exit(boot, why, told);
    settled(ledger);
    tell(ledger, listeners);
}

/// The guest did this by itself.
pub fn event(
    ledger: &mut Ledger,
    listeners: &mut Listeners,
    boot: u64,
    event: GuestEvent,
    told: TransitionList,
)
    requires held { IsHeld ledger.old listeners.old.listeners }
    requires room { 1 + open_ends (registrations listeners.old.listeners) ≤ ledger.old.spare }
    requires told { (told.list ≡ []) × (0 < told.room) }
    requires live { is_live (now_in ledger.old).state boot ≡ true }
    requires free { (now_in ledger.old).job ≡ None }
    ensures told { Tells (recorded ledger.old listeners.old.listeners) (recorded ledger.new listeners.new.listeners) (mark.Event boot event (event_transitions (now_in ledger.old).state event) ∷ []) }
    ensures course { ledger.new.course ≡ ledger.old.course }
    ensures held { IsHeld ledger.new listeners.new.listeners }
    ensures spare { (recorded ledger.new listeners.new.listeners).spare + 1 ≡ (recorded ledger.old listeners.old.listeners).spare }
{
    ledger.event(boot, event, told);
    settled(ledger);
    tell(ledger, listeners);
}
