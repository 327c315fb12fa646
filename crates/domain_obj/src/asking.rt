// Who answers what a call asks.
ghost use Rattle.std.specs.Prelude.{◌≡◌, ◌∷◌, ◌++◌, [], List, is_some, option_map};
ghost use Rattle.domain_obj.specs.Asking.{FitsAsk, IsAsked, IsBetween};
ghost use Rattle.domain_obj.specs.Sending.{SendsToGuest};
ghost use Rattle.monitor_link.specs.Views.{link_view};
ghost use Rattle.domain_spec.specs.Types.{Answer as TheAnswer, Ask as TheAsk};
ghost use Rattle.domain_core.specs.Tickets.{IsCounted, IsLinkAsked};
ghost use Rattle.domain_core.specs.OfShares.{told};

use crate::turns::DomainPass;
use domain_core::Ticket;
use monitor_link::{Guests, Link};
use virt_types::{Answer, Ask};

/// Who answers what the calls of a pass ask: commands by the monitor of their ticket, and the rest by itself. It is asked
/// while the pass has no turn.
pub trait Desk<G: Guests> {
    // What it was asked, each ask with its answer, but for those for which there was no memory.
    ghost report: { Self → List (TheAsk × TheAnswer) };

    /// Answers the ask that the open call of this pass waits for. A command goes to the ticket's monitor, once; where
    /// there is none, since the guest has still to be made, it is answered Ok without a value. With the answer that a
    /// guest was made comes its link, and with no other. It may wait.
    fn ask(
        &mut self,
        pass: &DomainPass<G>,
        ticket: &mut Ticket<G>,
        asked: &Ask,
    ) -> (Answer, Option<Link<G>>)
        requires { IsAsked pass.now asked.now }
        ensures monitor { is_some ticket.new.monitor ≡ is_some ticket.old.monitor }
        ensures sent { SendsToGuest G.M.Monitor asked.now ticket.old.monitor ticket.new.monitor result.0 }
        ensures fits { FitsAsk asked.now (is_some ticket.old.monitor) result.0 (is_some result.1) }
        ensures made { IsLinkAsked asked.now (option_map (link_view G.M.Monitor G.E.Ears G.Z.Killer) result.1) }
        ensures counted { IsCounted G.M.ends G.M.faults ticket.new.monitor result.0 }
        ensures report { report self.new ≡ report self.old ++ told (asked.now ∷ []) (result.0 ∷ []) };

    /// Is called before each phase of an operation, and asks nobody. It may wait.
    fn between(&mut self, pass: &DomainPass<G>)
        requires { IsBetween pass.now }
        ensures { report self.new ≡ report self.old };
}
