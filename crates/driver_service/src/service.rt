// The driver serves requests.
use crate::saying::said;
use crate::serving::is_served;
use driver::{Driver, Guests, Opening, Row};
use files_disk::Files;
use procedure_spec::Procedure;
use service_spec::Service;
use std::alloc::Global;
use std::sync::Wait;
use virt_types::{Random, Reply, Request, Who};

/// A driver, as sessions call it. It answers each request itself: what it does not serve, it refuses.
#[derive(Drop)]
pub struct DriverService<'a, F: Files + Drop, K: Opening, G: Guests> {
    /// Where the text of a refusal lies.
    pub alloc: Global,
    /// The driver.
    pub driver: &'a Driver<F, K, G>,
}

impl<'a, F: Files + Drop, K: Opening, G: Guests + Drop> Service for DriverService<'a, F, K, G> {
    ghost use Rattle.driver.specs.Cells.{IsRowOf};
    ghost use Rattle.driver.specs.Below.held_tasks.OfRows.{IsReadyRow};
    ghost use Rattle.driver_service.specs.Calling.{HasCalledDriver};
    ghost use Rattle.driver_service.specs.Serving.{is_served};

    type Row = Row<F, K, G>;

    ghost is_ready = { λ service row. IsRowOf service.driver.now row × IsReadyRow row };

    ghost is_served = { is_served };

    ghost has_called = { HasCalledDriver F.told F.faults G.faults G.E.ends G.E.faults G.E.unheard };

    fn serves(&self, procedure: Procedure) -> bool {
        is_served(procedure)
    }

    fn call<H: Wait, R: Random>(
        &self,
        rt: &H,
        row: Row<F, K, G>,
        who: Who,
        request: &Request,
        random: &mut R,
    ) -> (Row<F, K, G>, Reply) {
        let (row, outcome) = self.driver.call(rt, row, who, request, random);
        (row, said(self.alloc, request, outcome.reply))
    }
}
