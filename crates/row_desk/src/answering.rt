// A row's desk is one that calls over a domain ask.
ghost use Rattle.std.specs.Prelude.{◌≡◌, [], ◌∷◌, ◌++◌, is_some, option_map};
ghost use Rattle.domain_obj.specs.Asking.{FitsAsk, IsAsked, IsBetween};
ghost use Rattle.domain_obj.specs.OfCells.{IsCounted, IsLinkAsked};
ghost use Rattle.domain_obj.specs.Sending.{SendsToGuest};
ghost use Rattle.monitor_link.specs.Views.{link_view};
ghost use Rattle.domain_obj.specs.OfCells.{told};

use crate::desk::RowDesk;
use crate::handed::Handed;
use def_keeper::Opening;
use domain_obj::{Desk, DomainPass, Ticket};
use files_disk::Files;
use monitor_link::{Guests, Link};
use std::sync::Wait;
use virt_types::{Answer, Ask};

impl<'a, R: Wait, G: Guests, F: Files + Drop, K: Opening, P: Handed> Desk<G>
    for RowDesk<'a, R, G, F, K, P> {
    ghost report = { λ d. d.report };

    fn ask(
        &mut self,
        _pass: &DomainPass<G>,
        ticket: &mut Ticket<G>,
        asked: &Ask,
    ) -> (Answer, Option<Link<G>>) {
        self.answer(&mut ticket.monitor, asked)
    }

    fn between(&mut self, _pass: &DomainPass<G>) {}
}
