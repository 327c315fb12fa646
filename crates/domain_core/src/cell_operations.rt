// The turns of operations.
ghost use Rattle.std.specs.Prelude.{◌≡◌, None, is_some};
ghost use Rattle.domain_spec.specs.Cell.{share_of};
ghost use Rattle.domain_core.specs.Core.{excluded_so};
ghost use Rattle.domain_core.specs.Entering.{LooksFor, Operates};
ghost use Rattle.domain_core.specs.Shares.{IsFree};
ghost use Rattle.domain_core.specs.Celled.{KeepsLink, KeepsOtherShares, cell_in, link_kept, standing_in};
ghost use Rattle.domain_core.specs.Held.{out_by};
ghost use Rattle.domain_core.specs.Linked.{link_by};
ghost use Rattle.domain_core.specs.Tickets.{HandsMonitor, HasMonitor, LeadsOn, phase_ticket, phased_of};
ghost use Rattle.core_step_laws.specs.Made.{made_boot};
ghost use Rattle.core_steps.specs.OperationEnding.{CanEnd, Ends};
ghost use Rattle.core_steps.specs.Phasing.{IsDue, Phases};
ghost use Rattle.core_step_laws.specs.Queued.{queue_by};

use crate::cell::DomainCell;
use crate::{PhaseLook, hand_phase, keep};
use core_steps::OperationLook;
use history_spec::Stamp;
use monitor_link::Guests;
use std::alloc::Global;
use virt_types::{Call, Reply, Who};

impl<G: Guests> DomainCell<G> {
    /// A call looks that begins an operation, or takes one up that rests: where the job table lets it in, the operation goes
    /// on for it, or it is refused; else it waits, or may not, since 32 others do.
    pub fn enter_op(&mut self, alloc: Global, by: Stamp, who: Who, call: &Call) -> OperationLook
        requires free { IsFree (share_of (cell_in self.old) by.number) who }
        requires operates { Operates call.now }
        ensures looks { LooksFor by.number who call.now self.old.core.turning self.new.core.turning result }
        ensures queue { (cell_in self.new).queue ≡ queue_by result (cell_in self.old).queue by.number who }
        ensures excluded { self.new.core.excluded ≡ excluded_so who call.now result }
        ensures out { self.new.out ≡ self.old.out }
        ensures link { KeepsLink self.old self.new }
        ensures others { KeepsOtherShares by.number self.old self.new }
    {
        let looked = self.turns.enter_op(alloc, by, who, call);
        keep(&mut self.link, self.turns.made());
        looked
    }

    /// The due phase of the operation that this caller has open: it is admitted where no normal job is open, and else
    /// is excluded and leaves nothing. Where it asks it gets the monitor of the guest that is there.
    pub fn phase(&mut self, alloc: Global, by: Stamp, who: Who) -> PhaseLook<G>
        requires due { IsDue (standing_in self.old).operation by.number who }
        ensures phases { Phases by.number who self.old.core.turning self.new.core.turning (phased_of result) }
        ensures leads { LeadsOn (standing_in self.new).operation result }
        ensures excluded { self.new.core.excluded ≡ None }
        ensures out { self.new.out ≡ out_by (is_some (phase_ticket result)) (made_boot (standing_in self.new)) self.old.out }
        ensures ticket { HasMonitor (is_some self.new.out) (phase_ticket result) }
        ensures monitor { HandsMonitor G.M.Monitor (link_kept self.old self.new) (phase_ticket result) }
        ensures link { self.new.link ≡ link_by (is_some (phase_ticket result)) (link_kept self.old self.new) }
        ensures others { KeepsOtherShares by.number self.old self.new }
    {
        let looked = self.turns.phase(alloc, by, who);
        let made = self.turns.made();
        keep(&mut self.link, made);
        hand_phase(
            looked,
            &self.turns,
            alloc,
            &mut self.link,
            &mut self.out,
            made,
        )
    }

    /// The operation that this caller has open, and that is over, ends with the reply of its last phase.
    pub fn end_op(&mut self, alloc: Global, by: Stamp, who: Who) -> Reply
        requires over { CanEnd (standing_in self.old).operation by.number who }
        ensures ends { Ends by.number who self.old.core.turning self.new.core.turning result }
        ensures excluded { self.new.core.excluded ≡ None }
        ensures out { self.new.out ≡ self.old.out }
        ensures link { KeepsLink self.old self.new }
        ensures others { KeepsOtherShares by.number self.old self.new }
    {
        let reply = self.turns.end_op(alloc, by, who);
        keep(&mut self.link, self.turns.made());
        reply
    }
}
