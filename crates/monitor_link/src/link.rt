// The parts of a link to a guest. Nothing is assumed of what the far end says; but each cause that a call names is
// counted, so that contracts see a guest that ended and a link that was lost apart from an answer that
// was made up.
ghost use Rattle.std.specs.Prelude.{ℕ, ◌≡◌, ◌≤◌, ◌+◌, List};
ghost use Rattle.std.specs.declared.option.Option.{Option};
ghost use Rattle.monitor_link.specs.declared.exchange.Exchange.{Exchange as TheExchange};
ghost use Rattle.monitor_link.specs.declared.guest.Guest.{Guest as TheGuest};
ghost use Rattle.monitor_link.specs.Causes.{IsAnswerCaused, IsHeardCaused};
ghost use Rattle.monitor_link.specs.Exchanges.{Reports};
ghost use Rattle.virt_types.specs.declared.ask.GuestEvent.{GuestEvent as TheGuestEvent};
ghost use Rattle.monitor_link.specs.Hearing.{Hears};

use virt_types::{Answer, Command, EndReason, GuestEvent};

/// What is heard of a guest.
#[derive(Clone, Copy, Debug, PartialEq, Eq)]
pub enum Heard {
    /// Nothing new.
    Quiet,
    /// It did something.
    Event(GuestEvent),
    /// It has ended.
    Ended(EndReason),
    /// The link to it was lost.
    Lost,
    /// There was no memory. What was to be heard still is.
    NoMemory,
}

/// The end of a link at which a guest is sent commands (after QEMU's QMP).
pub trait Monitor {
    // The guest that it sends commands to.
    ghost guest: { Self → TheGuest };

    // How often an answer was that the guest has ended.
    ghost ends: { Self → ℕ };

    // How often the link was lost.
    ghost faults: { Self → ℕ };

    // The commands that were sent, each with its answer, in order, where the monitor reports them.
    ghost exchanges: { Self → Option (List TheExchange) };

    /// Sends a command, and gives its answer. It may wait for the guest. After `NoMemory` the command
    /// was not sent.
    fn ask(&mut self, command: &Command) -> Answer
        ensures guest { guest self.new ≡ guest self.old }
        ensures cause { IsAnswerCaused result (ends self.new) (faults self.old) (faults self.new) }
        ensures ends { ends self.old ≤ ends self.new }
        ensures faults { faults self.old ≤ faults self.new }
        ensures exchanges { Reports (exchanges self.old) (exchanges self.new) command.now result };
}

/// The end of a link at which a guest's events are heard.
pub trait Ears {
    // The guest that it hears.
    ghost guest: { Self → TheGuest };

    // How often it was heard that the guest has ended.
    ghost ends: { Self → ℕ };

    // How often the link was lost.
    ghost faults: { Self → ℕ };

    // The events that are still to be heard, in order, where the ears report them.
    ghost unheard: { Self → Option (List TheGuestEvent) };

    /// What is heard next. It may wait for the guest.
    fn hear(&mut self) -> Heard
        ensures guest { guest self.new ≡ guest self.old }
        ensures cause { IsHeardCaused result (ends self.new) (faults self.old) (faults self.new) }
        ensures ends { ends self.old ≤ ends self.new }
        ensures faults { faults self.old ≤ faults self.new }
        ensures unheard { Hears (unheard self.old) (unheard self.new) result };
}

/// What ends a guest without asking it.
pub trait Killer {
    // The guest that it ends.
    ghost guest: { Self → TheGuest };

    // How often it was called.
    ghost kills: { Self → ℕ };

    /// Ends the guest. It may wait for it. That the guest has ended is then heard and answered.
    fn kill(&mut self)
        ensures guest { guest self.new ≡ guest self.old }
        ensures kills { kills self.new ≡ kills self.old + 1 };
}
