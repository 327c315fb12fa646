// A row: one pass of each cell.
ghost use Rattle.std.specs.Prelude.{◌≡◌, IsTrue, ◌↔◌};
ghost use Rattle.pass_rows.specs.Rows.{IsIdleRow};

use crate::passes::Passes;
use crate::resting::RestingPass;
use std::marker::Model;
use turn_cell::Kept;

/// One pass of the list, one of the store, and one for each slot of the list; a maker of guests; and how many statuses of
/// boots its calls could not keep. Whoever has it may take turns at all of these cells. No reply depends on the count: it is
/// for the log.
#[derive(Drop)]
pub struct RowOf<L: Kept, S: Kept, D: Kept, G> {
    pub(crate) list: RestingPass<L>,
    pub(crate) store: RestingPass<S>,
    pub(crate) domains: Passes<D>,
    pub(crate) guests: G,
    pub(crate) unkept: u64,
}

impl<L: Kept, S: Kept, D: Kept, G> Model for RowOf<L, S, D, G> {
    ghost use Rattle.pass_rows.specs.Rows.{PassRow};

    ghost Value = { PassRow L.Base L.Mark L.Share S.Base S.Mark S.Share D.Base D.Mark D.Share G };

    ghost view = { λ r. record { list = r.list; store = r.store; domains = r.domains; guests = r.guests; unkept = r.unkept } };
}

impl<L: Kept, S: Kept, D: Kept, G> RowOf<L, S, D, G> {
    /// A row of these.
    pub fn of(
        list: RestingPass<L>,
        store: RestingPass<S>,
        domains: Passes<D>,
        guests: G,
        unkept: u64,
    ) -> RowOf<L, S, D, G>
        ensures { result ≡ record { list = list; store = store; domains = domains; guests = guests; unkept = unkept } }
    {
        RowOf {
            list,
            store,
            domains,
            guests,
            unkept,
        }
    }

    /// What the row has.
    pub fn into_parts(self) -> (RestingPass<L>, RestingPass<S>, Passes<D>, G, u64)
        ensures { self ≡ record { list = result.0; store = result.1; domains = result.2; guests = result.3; unkept = result.4 } }
    {
        let RowOf {
            list,
            store,
            domains,
            guests,
            unkept,
        } = self;
        (list, store, domains, guests, unkept)
    }

    /// Whether each pass has tickets left, and no cell keeps anything for it.
    pub fn is_idle(&self) -> bool
        ensures { IsTrue result ↔ IsIdleRow L.meaning S.meaning D.meaning self.now }
    {
        if !self.list.is_idle() || !self.store.is_idle() {
            return false;
        }
        self.domains.are_idle()
    }
}
