// What follows a mark: its listeners hear it, and those that overflow are cut.
ghost use Rattle.std.specs.Prelude.{◌≡◌, ◌≤◌, ◌+◌, None, length, map};
ghost use Rattle.domain_spec.specs.Fold.{at_base};
ghost use Rattle.domain_spec.specs.Legal.{IsLegal};
ghost use Rattle.core_flight.specs.Ledger.{now_in, standing_in, with_marks};
ghost use Rattle.core_flight.specs.Told.{told_last};
ghost use Rattle.event_queue.specs.Listening.{cut_mark, hears, registrations};
ghost use Rattle.core_log.specs.Record.{cuts_after, open_ends};

use core_flight::Ledger;
use event_queue::{Cut, Listeners};

// These registrations are cut, one after the other.
fn cut_all(ledger: &mut Ledger, cuts: &[Cut])
    requires room { length cuts.now ≤ ledger.old.spare }
    requires legal { IsLegal (standing_in ledger.old.history) (map cut_mark cuts.now) }
    ensures history { ledger.new.history ≡ with_marks ledger.old.history (map cut_mark cuts.now) }
    ensures course { ledger.new.course ≡ ledger.old.course }
    ensures spare { ledger.new.spare + length cuts.now ≡ ledger.old.spare }
{
    match cuts {
        [] => {}
        [first, rest @ ..] => {
            ledger.cut(first.client, first.total, first.taken);
            cut_all(ledger, rest);
        }
    }
}

/// The marks are a legal history, and no boot's end is left to be marked.
pub fn settled(ledger: &Ledger)
    ensures legal { IsLegal (at_base ledger.now.history.base) ledger.now.history.marks }
    ensures lost { (now_in ledger.now).lost ≡ None }
{
    ledger.told();
    ledger.state();
}

/// The listeners hear what the last mark told, and those that overflow are cut.
pub fn tell(ledger: &mut Ledger, listeners: &mut Listeners)
    requires ends { open_ends (registrations listeners.old.listeners) ≤ ledger.old.spare }
    requires legal { IsLegal (standing_in ledger.old.history) (cuts_after (registrations listeners.old.listeners) (told_last ledger.old.history.marks)) }
    ensures history { ledger.new.history ≡ with_marks ledger.old.history (cuts_after (registrations listeners.old.listeners) (told_last ledger.old.history.marks)) }
    ensures course { ledger.new.course ≡ ledger.old.course }
    ensures listeners { listeners.new.listeners ≡ map (hears (told_last ledger.old.history.marks)) listeners.old.listeners }
    ensures spare { ledger.new.spare + open_ends (registrations listeners.old.listeners) ≡ ledger.old.spare + open_ends (registrations listeners.new.listeners) }
    ensures settled { IsLegal (at_base ledger.new.history.base) ledger.new.history.marks }
{
    listeners.hear(ledger.told());
    cut_all(ledger, listeners.due());
    settled(ledger);
}
