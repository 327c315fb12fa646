// Links to modelled guests. The parts of a link share one guest under a lock, so each may go to a thread
// of its own; where one is dropped, the others still work.
ghost use Rattle.std.specs.Prelude.{◌≡◌, ◌+◌, ℕ, IfErr};

use crate::guest::SimGuest;
use monitor_link::{Counts, Ears, Guest, Guests, Heard, Killer, Link, Monitor, said_guest};
use std::alloc::Global;
use std::sync::{Arc, Mutex, Wait};
use types_ghost::Said;
use virt_types::{Answer, Command, DomainDef, Fault, NoMemory};

/// The part of a link to a modelled guest that sends commands.
#[derive(Drop)]
pub struct SimMonitor<H> {
    of: Said<Guest>,
    guest: Arc<Mutex<SimGuest>, Global>,
    rt: H,
    counts: Counts,
}

impl<H: Wait + Copy + Send + Sync> Monitor for SimMonitor<H> {
    ghost use Rattle.std.specs.Prelude.{None};

    ghost guest = { λ m. m.of.value };

    ghost ends = { λ m. m.counts.ends };

    ghost faults = { λ m. m.counts.faults };

    ghost exchanges = { λ _. None };

    fn ask(&mut self, command: &Command) -> Answer {
        let answer = self.guest.lock(&self.rt).ask(command);
        self.counts.count_answer(&answer);
        answer
    }
}

/// The part of a link to a modelled guest that hears its events.
#[derive(Drop)]
pub struct SimEars<H> {
    of: Said<Guest>,
    guest: Arc<Mutex<SimGuest>, Global>,
    rt: H,
    counts: Counts,
}

impl<H: Wait + Copy + Send + Sync> Ears for SimEars<H> {
    ghost use Rattle.std.specs.Prelude.{None};

    ghost guest = { λ e. e.of.value };

    ghost ends = { λ e. e.counts.ends };

    ghost faults = { λ e. e.counts.faults };

    ghost unheard = { λ _. None };

    fn hear(&mut self) -> Heard {
        let heard = self.guest.lock(&self.rt).hear();
        self.counts.count_heard(heard);
        heard
    }
}

/// The part of a link to a modelled guest that ends it.
#[derive(Drop)]
pub struct SimKiller<H> {
    of: Said<Guest>,
    kills: Said<u64>,
    guest: Arc<Mutex<SimGuest>, Global>,
    rt: H,
}

impl<H: Wait + Copy + Send + Sync> Killer for SimKiller<H> {
    ghost guest = { λ z. z.of.value };

    ghost kills = { λ z. z.kills.value };

    fn kill(&mut self) {
        self.kills = one_more(&self.kills);
        self.guest.lock(&self.rt).kill();
    }
}

// Contracts count the calls of a killer: none yet.
fn none_yet() -> Said<u64>
    ensures { result.value ≡ 0 }
{
    Said::named()
}

// One more of them.
fn one_more(kills: &Said<u64>) -> Said<u64>
    ensures { result.value ≡ kills.now.value + 1 }
{
    after(kills)
}

// Their number is named in two steps, since a pick sees the callee's arguments alone.
fn after(_kills: &Said<u64>) -> Said<u64>
    ghost number: { ℕ }
    ensures { result.value ≡ number }
{
    Said::named()
}

/// What makes modelled guests. It fails only where there is no memory.
#[derive(Drop)]
pub struct SimGuests<H> {
    rt: H,
    alloc: Global,
}

impl<H> SimGuests<H> {
    /// A maker whose links wait for their locks by this handle.
    pub fn new(rt: H, alloc: Global) -> SimGuests<H> {
        SimGuests { rt, alloc }
    }
}

impl<H: Wait + Copy + Send + Sync> Guests for SimGuests<H> {
    type M = SimMonitor<H>;

    type E = SimEars<H>;

    type Z = SimKiller<H>;

    ghost faults = { λ _. 0 };

    fn make(&mut self, def: &DomainDef, boot: u64) -> Result<Link<SimGuests<H>>, Fault> {
        let rt = self.rt;
        let guest = SimGuest::new(self.alloc, def, boot)?;
        let for_monitor = Arc::new(self.alloc, Mutex::new(guest))?;
        let for_ears = Arc::try_clone(&for_monitor)?;
        let for_killer = Arc::try_clone(&for_monitor)?;
        Ok(Link {
            monitor: SimMonitor {
                of: said_guest(def, boot),
                guest: for_monitor,
                rt,
                counts: Counts::NONE,
            },
            ears: SimEars {
                of: said_guest(def, boot),
                guest: for_ears,
                rt,
                counts: Counts::NONE,
            },
            killer: SimKiller {
                of: said_guest(def, boot),
                kills: none_yet(),
                guest: for_killer,
                rt,
            },
        })
    }

    /// It takes no memory, so there is always another.
    fn another(&mut self) -> Result<SimGuests<H>, NoMemory>
        ensures { IfErr result (λ _. ⊥) }
    {
        Ok(SimGuests {
            rt: self.rt,
            alloc: self.alloc,
        })
    }
}
