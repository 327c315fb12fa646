// The link to a guest, and what makes guests.
ghost use Rattle.std.specs.Prelude.{ℕ, ◌≤◌, IfErr, IfOk};
ghost use Rattle.monitor_link.specs.Causes.{IsFaultCaused};
ghost use Rattle.monitor_link.specs.Exchanges.{HasNoExchange};
ghost use Rattle.monitor_link.specs.Views.{IsLinkTo, guest_of, link_view};

use crate::link::{Ears, Killer, Monitor};
use virt_types::{DomainDef, Fault, NoMemory};

/// The three parts of a link to one guest that this maker made, which may go to different activities.
#[derive(Drop)]
pub struct Link<G: Guests> {
    /// What sends it commands.
    pub monitor: G::M,
    /// What hears its events.
    pub ears: G::E,
    /// What ends it.
    pub killer: G::Z,
}

/// What makes guests. Whether the parts of their links may go to other threads is said where there are
/// threads (`ThreadGuests`).
pub trait Guests {
    /// The monitors of its guests.
    type M: Monitor + Drop;

    /// Their ears.
    type E: Ears + Drop;

    /// What ends them.
    type Z: Killer + Drop;

    // How often a guest could not be made.
    ghost faults: { Self → ℕ };

    /// Makes a guest of this definition, for the boot of this number. All parts of the link are its own, it was sent
    /// nothing yet, and it was not killed.
    fn make(&mut self, def: &DomainDef, boot: u64) -> Result<Link<Self>, Fault>
    where
        Self: Sized,
        ensures cause { IfErr result (λ fault. IsFaultCaused fault (faults self.old) (faults self.new)) }
        ensures faults { faults self.old ≤ faults self.new }
        ensures guest { IfOk result (λ link. IsLinkTo (guest_of def.now boot) (link_view Self.M.Monitor Self.E.Ears Self.Z.Killer link)) }
        ensures exchanges { IfOk result (λ link. HasNoExchange (Self.M.exchanges link.monitor)) };

    /// Another maker of such guests, for another activity.
    fn another(&mut self) -> Result<Self, NoMemory>
    where
        Self: Sized,
        ensures faults { faults self.old ≤ faults self.new };
}
