// The turns of calls.
ghost use Rattle.std.specs.Prelude.{◌≡◌, None, Some, is_some, option_map};
ghost use Rattle.domain_spec.specs.CanTake.{CanLook, CanTake};
ghost use Rattle.domain_spec.specs.Refusals.{bare};
ghost use Rattle.domain_spec.specs.Types.code;
ghost use Rattle.domain_spec.specs.Types.reply;
ghost use Rattle.domain_spec.specs.declared.core_step.CoreStep.TheVariants as step;
ghost use Rattle.domain_core.specs.Core.{excluded_by};
ghost use Rattle.domain_core.specs.Celled.{KeepsLink, KeepsOtherShares, cell_in, link_answered, link_kept, standing_in};
ghost use Rattle.domain_core.specs.Held.{out_by};
ghost use Rattle.domain_core.specs.Linked.{link_by};
ghost use Rattle.monitor_link.specs.Views.{link_view, monitor_view};
ghost use Rattle.domain_core.specs.Tickets.{HandsMonitor, HasMonitor, IsAnswered, IsCounted, IsMadeAsAsked, LeadsBack, back_of, back_ticket, look_ticket, looked_of};
ghost use Rattle.core_steps.specs.Answering.{GoesBack};
ghost use Rattle.core_steps.specs.Looking.{IsKnownFirst, Looks};
ghost use Rattle.core_steps.specs.Refusing.{HasRefused};
ghost use Rattle.core_steps.specs.Turning.{Takes};
ghost use Rattle.core_step_laws.specs.Made.{made_boot};
ghost use Rattle.core_step_laws.specs.Queued.{queue_of};

use crate::cell::DomainCell;
use crate::{Back, Look, Ticket, hand_back, hand_look, keep, keep_or_take, put_monitor};
use domain_spec::First;
use history_spec::Stamp;
use monitor_link::{Guests, Link};
use std::alloc::Global;
use virt_types::{Answer, Call, Reply, Who};

impl<G: Guests> DomainCell<G> {
    /// A call looks: it is admitted, and is done at once or asks somebody; or it is excluded and waits; or it
    /// may not wait, since 32 others do. It neither begins an operation nor takes one up. Where it asks it gets the
    /// monitor of the guest that is there. Where there is no memory nothing is left of it.
    pub fn look(&mut self, alloc: Global, by: Stamp, who: Who, call: &Call, first: First) -> Look<G>
        requires can { CanLook (cell_in self.old) by.number who call.now first }
        requires known { IsKnownFirst first (cell_in self.old) }
        ensures looks { Looks by.number who call.now first self.old.core.turning self.new.core.turning (looked_of result) }
        ensures queue { (cell_in self.new).queue ≡ queue_of (looked_of result) (cell_in self.old).queue by.number who }
        ensures excluded { self.new.core.excluded ≡ excluded_by who call.now (looked_of result) }
        ensures out { self.new.out ≡ out_by (is_some (look_ticket result)) (made_boot (standing_in self.new)) self.old.out }
        ensures ticket { HasMonitor (is_some self.new.out) (look_ticket result) }
        ensures monitor { HandsMonitor G.M.Monitor (link_kept self.old self.new) (look_ticket result) }
        ensures link { self.new.link ≡ link_by (is_some (look_ticket result)) (link_kept self.old self.new) }
        ensures others { KeepsOtherShares by.number self.old self.new }
    {
        let looked = self.turns.look(alloc, by, who, call, first);
        let made = self.turns.made();
        keep(&mut self.link, made);
        hand_look(looked, &mut self.link, &mut self.out, made)
    }

    /// The ask that the open call, or the phase, made last is answered so: it is done, and then the held events
    /// apply, or it asks on. The ticket comes back; with the answer that a guest was made comes the link of the one that was
    /// asked for. It takes no
    /// memory but for the next ask, and for a copy of what the call of an operation is told that rests.
    pub fn back(
        &mut self,
        alloc: Global,
        by: Stamp,
        ticket: Ticket<G>,
        answer: Answer,
        made: Option<Link<G>>,
    ) -> Back<G>
        requires can { CanTake (cell_in self.old) (step.Back by.number answer) }
        requires ticket { is_some ticket.monitor ≡ is_some self.old.out }
        requires answered { IsAnswered (cell_in self.old) (is_some ticket.monitor) answer (is_some made) }
        requires made { IsMadeAsAsked (cell_in self.old) (option_map (link_view G.M.Monitor G.E.Ears G.Z.Killer) made) }
        requires counted { IsCounted G.M.ends G.M.faults ticket.monitor answer }
        ensures back { GoesBack by.number answer self.old.core.turning self.new.core.turning (back_of result) }
        ensures leads { LeadsBack (standing_in self.new).operation result }
        ensures excluded { self.new.core.excluded ≡ None }
        ensures out { self.new.out ≡ out_by (is_some (back_ticket result)) (made_boot (standing_in self.new)) None }
        ensures ticket { HasMonitor (is_some self.new.out) (back_ticket result) }
        ensures monitor { HandsMonitor G.M.Monitor (link_answered (option_map (link_view G.M.Monitor G.E.Ears G.Z.Killer) made) (option_map (monitor_view G.M.Monitor) ticket.monitor) self.old self.new) (back_ticket result) }
        ensures link { self.new.link ≡ link_by (is_some (back_ticket result)) (link_answered (option_map (link_view G.M.Monitor G.E.Ears G.Z.Killer) made) (option_map (monitor_view G.M.Monitor) ticket.monitor) self.old self.new) }
        ensures others { KeepsOtherShares by.number self.old self.new }
    {
        put_monitor(&mut self.link, self.out, ticket.monitor);
        self.out = None;
        let left = self.turns.back(by, answer);
        let now = self.turns.made();
        keep_or_take(&mut self.link, now, made, self.turns.heard());
        hand_back(left, &self.turns, alloc, &mut self.link, &mut self.out, now)
    }

    /// The call that the turn before found excluded looked often enough: it is refused, and waits no more. It
    /// takes no memory.
    pub fn give_up(&mut self, alloc: Global, by: Stamp, who: Who, call: &Call) -> Reply
        requires can { CanTake (cell_in self.old) (step.GiveUp by.number who call.now) }
        requires excluded { self.old.core.excluded ≡ Some (record { who = who; call = call.now }) }
        ensures given_up { Takes self.old.core.turning self.new.core.turning (step.GiveUp by.number who call.now) (HasRefused by.number who call.now code.OperationTimeout) }
        ensures reply { result ≡ reply.No (bare code.OperationTimeout) }
        ensures excluded { self.new.core.excluded ≡ None }
        ensures out { self.new.out ≡ self.old.out }
        ensures link { KeepsLink self.old self.new }
        ensures others { KeepsOtherShares by.number self.old self.new }
    {
        let reply = self.turns.give_up(alloc, by, who, call);
        keep(&mut self.link, self.turns.made());
        reply
    }
}
