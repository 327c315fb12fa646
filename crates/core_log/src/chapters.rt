// The next chapter, which begins with who is registered.
ghost use Rattle.std.specs.Prelude.{◌≡◌, ◌≤◌, ◌<◌, ◌+◌, ◌++◌, ◌^◌, [], IfOk, None, OnErr, OnOk, length};
ghost use Rattle.domain_spec.specs.Chapter.{next_base};
ghost use Rattle.core_flight.specs.Ledger.{now_in};
ghost use Rattle.event_queue.specs.Listening.{registrations};
ghost use Rattle.core_log.specs.Record.{IsHeld, recorded};

use core_flight::{KeptRegistration, Ledger};
use event_queue::{Listener, Listeners};
use std::alloc::Global;
use virt_types::{ListOf, NoMemory, RoomyList};

// A registration, for the base of a chapter.
fn kept(alloc: Global, listener: &Listener) -> Result<KeptRegistration, NoMemory>
    ensures { IfOk result (λ it. it ≡ listener.now.kept) }
{
    match listener.pending(alloc) {
        Ok(pending) => Ok(KeptRegistration {
            by: listener.by().again(),
            client: listener.client(),
            taken: listener.taken(),
            pending,
            is_lost: listener.is_lost(),
        }),
        Err(e) => Err(e),
    }
}

// Puts these after the others.
fn put_kept(
    alloc: Global,
    listeners: &[Listener],
    into: &mut RoomyList<KeptRegistration>,
) -> Result<(), NoMemory>
    requires room { length listeners.now ≤ into.old.room }
    ensures { OnOk result (into.new.list ≡ into.old.list ++ registrations listeners.now) }
{
    match listeners {
        [] => Ok(()),
        [first, rest @ ..] => match kept(alloc, first) {
            Ok(it) => {
                into.push(it);
                put_kept(alloc, rest, into)
            }
            Err(e) => Err(e),
        },
    }
}

fn kept_list(alloc: Global, listeners: &[Listener]) -> Result<ListOf<KeptRegistration>, NoMemory>
    ensures { IfOk result (λ list. list ≡ registrations listeners.now) }
{
    let mut list = RoomyList::with_room(alloc, listeners.len())?;
    match put_kept(alloc, listeners, &mut list) {
        Ok(()) => Ok(list.into_list()),
        Err(e) => Err(e),
    }
}

/// The next chapter begins with what is there now, and with who is registered.
pub fn rotate(
    ledger: &mut Ledger,
    listeners: &Listeners,
    alloc: Global,
    room: usize,
) -> Result<(), NoMemory>
    requires held { IsHeld ledger.old listeners.now.listeners }
    requires none { (now_in ledger.old).job ≡ None }
    requires number { ledger.old.history.chapter < 2 ^ 62 }
    requires few { room ≤ 4096 }
    ensures history { OnOk result (ledger.new.history ≡ record { chapter = ledger.old.history.chapter + 1; base = next_base (now_in ledger.old) (registrations listeners.now.listeners); marks = [] }) }
    ensures course { ledger.new.course ≡ ledger.old.course }
    ensures room { OnOk result (room ≤ (recorded ledger.new listeners.now.listeners).spare) }
    ensures held { IsHeld ledger.new listeners.now.listeners }
    ensures err { OnErr result (ledger.new ≡ ledger.old) }
{
    let all = listeners.as_slice();
    match kept_list(alloc, all) {
        Ok(registrations) => ledger.rotate(alloc, registrations, room + all.len()),
        Err(e) => Err(e),
    }
}

/// Room for so many more marks, besides those by which registrations end.
pub fn reserve(ledger: &mut Ledger, listeners: &Listeners, marks: usize) -> Result<(), NoMemory>
    requires held { IsHeld ledger.old listeners.now.listeners }
    requires few { marks ≤ 4096 }
    ensures history { ledger.new.history ≡ ledger.old.history }
    ensures course { ledger.new.course ≡ ledger.old.course }
    ensures room { OnOk result (marks ≤ (recorded ledger.new listeners.now.listeners).spare) }
    ensures stays { (recorded ledger.old listeners.now.listeners).spare ≤ (recorded ledger.new listeners.now.listeners).spare }
    ensures held { IsHeld ledger.new listeners.now.listeners }
{
    ledger.reserve(marks + listeners.as_slice().len())
}
