// The guests of stories: their killers tell that they were called, and they may withhold an answer, or talk without end.
use crate::signals::{SharedSignals, Signal};
use monitor_link::{Ears, Guests, Heard, Killer, Link, Monitor};
use std::sync::{Arc, Wait};
use virt_types::{Answer, Command, DomainDef, Fault, GuestEvent, NoMemory};

/// A command whose answer is withheld.
#[derive(Clone, Copy)]
pub enum Withheld {
    /// To stand still.
    Stop,
    /// To go on.
    Cont,
}

impl Withheld {
    fn is(self, command: &Command) -> bool {
        match self {
            Withheld::Stop => matches!(command, Command::Stop),
            Withheld::Cont => matches!(command, Command::Cont),
        }
    }
}

/// What the guests of a story do beside what they are told.
#[derive(Clone, Copy)]
pub enum Manner {
    /// Nothing.
    Plain,
    /// Their ears always have one more event.
    TalksOn,
    /// Their monitors withhold the answer to this command until this signal.
    Withholds(Withheld, Signal),
    /// Their ears always have one more event, and their monitors withhold the answer to this command until this signal.
    TalksOnAndWithholds(Withheld, Signal),
}

impl Manner {
    // Until which signal the answer to this command is withheld.
    fn until(self, command: &Command) -> Option<Signal> {
        match self {
            Manner::Plain | Manner::TalksOn => None,
            Manner::Withholds(withheld, until) | Manner::TalksOnAndWithholds(withheld, until) => {
                if withheld.is(command) {
                    Some(until)
                } else {
                    None
                }
            }
        }
    }

    fn talks_on(self) -> bool {
        matches!(self, Manner::TalksOn | Manner::TalksOnAndWithholds(..))
    }
}

/// A monitor that may withhold an answer.
#[derive(Drop)]
pub struct StoryMonitor<H, M> {
    rt: H,
    monitor: M,
    signals: SharedSignals,
    manner: Manner,
}

impl<H: Wait, M: Monitor> Monitor for StoryMonitor<H, M> {
    ghost guest = { λ m. M.guest m.monitor };

    ghost ends = { λ m. M.ends m.monitor };

    ghost faults = { λ m. M.faults m.monitor };

    ghost exchanges = { λ m. M.exchanges m.monitor };

    fn ask(&mut self, command: &Command) -> Answer {
        if let Some(until) = self.manner.until(command) {
            self.signals.hold(&self.rt, until);
        }
        self.monitor.ask(command)
    }
}

/// Ears that hear the guest, or, where it talks on, that it goes on, each time.
#[derive(Drop)]
pub struct StoryEars<E> {
    ears: E,
    manner: Manner,
}

impl<E: Ears> Ears for StoryEars<E> {
    ghost use Rattle.std.specs.Prelude.{None};

    ghost guest = { λ e. E.guest e.ears };

    ghost ends = { λ e. E.ends e.ears };

    ghost faults = { λ e. E.faults e.ears };

    ghost unheard = { λ _. None };

    fn hear(&mut self) -> Heard {
        if self.manner.talks_on() {
            return Heard::Event(GuestEvent::Resume);
        }
        self.ears.hear()
    }
}

/// What ends a guest, and tells that it was called.
#[derive(Drop)]
pub struct StoryKiller<Z> {
    killer: Z,
    signals: SharedSignals,
}

impl<Z: Killer> Killer for StoryKiller<Z> {
    ghost guest = { λ z. Z.guest z.killer };

    ghost kills = { λ z. Z.kills z.killer };

    fn kill(&mut self) {
        self.killer.kill();
        self.signals.give(Signal::Killed);
    }
}

/// What makes the guests of a story, by another maker.
#[derive(Drop)]
pub struct StoryGuests<H, G> {
    rt: H,
    guests: G,
    signals: SharedSignals,
    manner: Manner,
}

impl<H, G> StoryGuests<H, G> {
    /// Guests that this maker makes, and that are like that.
    pub fn new(rt: H, guests: G, signals: SharedSignals, manner: Manner) -> StoryGuests<H, G> {
        StoryGuests {
            rt,
            guests,
            signals,
            manner,
        }
    }
}

impl<H: Wait + Copy + Send + Sync, G: Guests> Guests for StoryGuests<H, G> {
    type M = StoryMonitor<H, G::M>;

    type E = StoryEars<G::E>;

    type Z = StoryKiller<G::Z>;

    ghost faults = { λ g. G.faults g.guests };

    fn make(&mut self, def: &DomainDef, boot: u64) -> Result<Link<StoryGuests<H, G>>, Fault> {
        let for_monitor = Arc::try_clone(&self.signals)?;
        let for_killer = Arc::try_clone(&self.signals)?;
        let Link {
            monitor,
            ears,
            killer,
        } = self.guests.make(def, boot)?;
        Ok(Link {
            monitor: StoryMonitor {
                rt: self.rt,
                monitor,
                signals: for_monitor,
                manner: self.manner,
            },
            ears: StoryEars {
                ears,
                manner: self.manner,
            },
            killer: StoryKiller {
                killer,
                signals: for_killer,
            },
        })
    }

    fn another(&mut self) -> Result<StoryGuests<H, G>, NoMemory> {
        let signals = Arc::try_clone(&self.signals)?;
        let guests = self.guests.another()?;
        Ok(StoryGuests {
            rt: self.rt,
            guests,
            signals,
            manner: self.manner,
        })
    }
}
