// What a call, or a phase, takes along while it is away, and what its turns answer.
ghost use Rattle.std.specs.Prelude.{◌≡◌, None, is_some, option_map, true};
ghost use Rattle.domain_core.specs.Held.{out_by};
ghost use Rattle.domain_core.specs.Linked.{link_by, monitor_in};
ghost use Rattle.monitor_link.specs.Views.{monitor_view};
ghost use Rattle.domain_core.specs.Tickets.{HandsMonitor, HasMonitor, LeadsBack, LeadsOn, back_of, back_ticket, look_ticket, looked_of, phase_ticket, phased_of};
ghost use Rattle.domain_spec.specs.Cell.{standing_of};

use crate::link::{Here, take_monitor};
use crate::next::Next;
use crate::turns::DomainTurns;
use core_steps::{Back as CoreBack, Looked, PhaseLook as CorePhase};
use job_rules::JobRecord;
use monitor_link::Guests;
use std::alloc::Global;
use virt_types::{Ask, Reply};

/// What a call takes along that asks: the monitor of its domain's guest, where that is there. It comes back with the
/// answer.
#[derive(Drop)]
pub struct Ticket<G: Guests> {
    /// What sends commands to the guest.
    pub monitor: Option<G::M>,
}

/// What became of a call that looked.
#[derive(Drop)]
pub enum Look<G: Guests> {
    /// It is done; its caller is told this.
    Done(Reply),
    /// It asks this.
    Away(Ticket<G>, Ask),
    /// Its job is excluded, and it waits.
    Excluded {
        /// What is held.
        held: JobRecord,
        /// The live boot.
        boot: Option<u64>,
        /// How many of its looks found it so.
        looks: u32,
    },
    /// Its job is excluded, and it may not wait, since so many others do.
    WaitersFull(u32),
    /// There was no memory for it, and nothing is left of it.
    NoMemory,
}

/// What became of a due phase.
#[derive(Drop)]
pub enum PhaseLook<G: Guests> {
    /// It asks this.
    Away(Ticket<G>, Ask),
    /// It is done, and leads on so.
    Phased(Next),
    /// A normal job is open: nothing changed.
    Excluded,
    /// There was no memory even for the answer that there is none, and nothing is left of it.
    NoMemory,
}

/// What became of a call, or a phase, whose ask was answered.
#[derive(Drop)]
pub enum Back<G: Guests> {
    /// The call is done; its caller is told this.
    Done(Reply),
    /// It asks this next.
    Away(Ticket<G>, Ask),
    /// The phase is done, and leads on so.
    Phased(Next),
}

// The monitor of the guest that is there goes out.
fn hand_ticket<G: Guests>(
    link: &mut Option<Here<G>>,
    out: &mut Option<u64>,
    made: Option<u64>,
) -> Ticket<G>
    ensures monitor { option_map (monitor_view G.M.Monitor) result.monitor ≡ monitor_in link.old }
    ensures link { link.new ≡ link_by true link.old }
    ensures out { out.new ≡ made }
{
    *out = made;
    Ticket {
        monitor: take_monitor(link),
    }
}

// The same with a ticket, where it asks: with the monitor of the guest that is there.
pub fn hand_look<G: Guests>(
    looked: Looked,
    link: &mut Option<Here<G>>,
    out: &mut Option<u64>,
    made: Option<u64>,
) -> Look<G>
    ensures same { looked_of result ≡ looked }
    ensures ticket { HasMonitor (is_some (monitor_in link.old)) (look_ticket result) }
    ensures monitor { HandsMonitor G.M.Monitor link.old (look_ticket result) }
    ensures link { link.new ≡ link_by (is_some (look_ticket result)) link.old }
    ensures out { out.new ≡ out_by (is_some (look_ticket result)) made out.old }
{
    match looked {
        Looked::Away(ask) => Look::Away(hand_ticket(link, out, made), ask),
        Looked::Done(reply) => Look::Done(reply),
        Looked::Excluded { held, boot, looks } => Look::Excluded { held, boot, looks },
        Looked::WaitersFull(waiting) => Look::WaitersFull(waiting),
        Looked::NoMemory => Look::NoMemory,
    }
}

// The same with a ticket, where it asks; and where it is done with what its call is told, as the domain is now.
pub fn hand_phase<G: Guests>(
    looked: CorePhase,
    turns: &DomainTurns,
    alloc: Global,
    link: &mut Option<Here<G>>,
    out: &mut Option<u64>,
    made: Option<u64>,
) -> PhaseLook<G>
    ensures same { phased_of result ≡ looked }
    ensures leads { LeadsOn (standing_of turns.now.turning.cell).operation result }
    ensures ticket { HasMonitor (is_some (monitor_in link.old)) (phase_ticket result) }
    ensures monitor { HandsMonitor G.M.Monitor link.old (phase_ticket result) }
    ensures link { link.new ≡ link_by (is_some (phase_ticket result)) link.old }
    ensures out { out.new ≡ out_by (is_some (phase_ticket result)) made out.old }
{
    match looked {
        CorePhase::Away(ask) => PhaseLook::Away(hand_ticket(link, out, made), ask),
        CorePhase::Phased(step) => PhaseLook::Phased(turns.next(alloc, step)),
        CorePhase::Excluded => PhaseLook::Excluded,
        CorePhase::NoMemory => PhaseLook::NoMemory,
    }
}

// The same with a ticket, where it asks; and where a phase is done with what its call is told, as the domain is now.
pub fn hand_back<G: Guests>(
    left: CoreBack,
    turns: &DomainTurns,
    alloc: Global,
    link: &mut Option<Here<G>>,
    out: &mut Option<u64>,
    made: Option<u64>,
) -> Back<G>
    ensures same { back_of result ≡ left }
    ensures leads { LeadsBack (standing_of turns.now.turning.cell).operation result }
    ensures ticket { HasMonitor (is_some (monitor_in link.old)) (back_ticket result) }
    ensures monitor { HandsMonitor G.M.Monitor link.old (back_ticket result) }
    ensures link { link.new ≡ link_by (is_some (back_ticket result)) link.old }
    ensures out { out.new ≡ out_by (is_some (back_ticket result)) made out.old }
{
    match left {
        CoreBack::Away(ask) => Back::Away(hand_ticket(link, out, made), ask),
        CoreBack::Done(reply) => Back::Done(reply),
        CoreBack::Phased(step) => Back::Phased(turns.next(alloc, step)),
    }
}
