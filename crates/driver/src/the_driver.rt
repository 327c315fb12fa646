// The driver: its cells, and the calls that activities make with their rows.
ghost use Rattle.std.specs.Prelude.{◌≡◌, ◌≤◌, ◌<◌, IfErr, IfOk, length};
ghost use Rattle.std.specs.List.{All};
ghost use Rattle.request_asks.specs.Below.def_keeper.Opened.{IsSureAt};
ghost use Rattle.request_asks.specs.Below.def_keeper.Safe.{KeepsAll};
ghost use Rattle.driver_close.specs.Closed.{HasClosed, IsWhole};
ghost use Rattle.held_tasks.specs.OfRows.{IsReadyRow, KeepsParts, known_row};
ghost use Rattle.driver_close.specs.OfOpening.{HasCells, IsUnopened};
ghost use Rattle.held_tasks.specs.OfOutcomes.{HasGone, HasOutcome, ReadsNow};
ghost use Rattle.pass_rows.specs.Rows.{HasRowParts, KeepsPasses};
ghost use Rattle.virt_types.specs.Drawn.{IsMadeOfDrawn};
ghost use Rattle.driver.specs.Called.{HasCalled};
ghost use Rattle.driver.specs.Cells.{BecomesMany, IsIdleRow, IsRowOf};

use crate::serving::serve;
use driver_close::{
    Books, DriverFault, HistoryRoom, Opened, RowList, close_cells, more, open_cells,
};
use files_disk::Files;
use held_tasks::{Cells, Outcome, Row};
use monitor_link::Guests;
use request_asks::Opening;
use std::alloc::Global;
use std::marker::Model;
use std::sync::Wait;
use virt_types::{ListOf, NoMemory, OrNoMemory, Random, Request, RequestList, Status, Who};

/// The driver of a daemon: the list of domains, the store of definitions, and the domains. Many activities call it at once,
/// each with a row of its own. Contracts see which cells it has.
#[derive(Drop)]
pub struct Driver<F: Files + Drop, K: Opening, G: Guests> {
    alloc: Global,
    cells: Cells<F, K, G>,
    starts: RequestList,
    statuses: ListOf<Option<Status>>,
    room: HistoryRoom,
}

impl<F: Files + Drop, K: Opening, G: Guests> Model for Driver<F, K, G> {
    ghost use Rattle.std.specs.Prelude.{◌≡◌, ◌≤◌, length};
    ghost use Rattle.virt_types.specs.Limits.{most_domains};
    ghost use Rattle.driver.specs.Cells.{DriverView};

    ghost Value = { DriverView };

    ghost view = { λ d. record { list = d.cells.list; store = d.cells.store; domains = d.cells.domains.items; starts = d.starts; statuses = d.statuses } };

    ghost invariant = { λ d. (length d.cells.domains.items ≡ most_domains) × (most_domains ≤ d.room) };
}

impl<F: Files + Drop, K: Opening, G: Guests> Driver<F, K, G> {
    /// Opens a driver on the directory of these files, and gives the row of the first passes of its cells. Its list has the
    /// domains that are found there, by rising name, in slots 0, 1, .. Files of version 1 are put again. Where the driver is
    /// not opened, the files and the maker of guests come back: for the first fault of the store, a text that is not that of
    /// its file's domain, or a domain, network or pool too many.
    pub fn open(
        alloc: Global,
        files: F,
        guests: G,
    ) -> Result<(Driver<F, K, G>, Row<F, K, G>), (F, G, OrNoMemory<DriverFault>)>
        requires sound { K.sound → IsSureAt (F.told files) }
        ensures ok { IfOk result (λ made. HasCells F.told files made.1 made.0.starts made.0.statuses) }
        ensures own { IfOk result (λ made. IsRowOf made.0 made.1) }
        ensures ready { IfOk result (λ made. IsReadyRow made.1) }
        ensures maker { IfOk result (λ made. made.1.guests ≡ guests) }
        ensures unkept { IfOk result (λ made. made.1.unkept ≡ 0) }
        ensures err { IfErr result (λ e. IsUnopened F.told F.faults K.sound files e.2 e.0) }
        ensures back { IfErr result (λ e. e.1 ≡ guests) }
    {
        let opened = match open_cells(alloc, files, guests) {
            Ok(opened) => opened,
            Err(e) => return Err(e),
        };
        let Opened {
            cells,
            row,
            starts,
            statuses,
            room,
        } = opened;
        let driver = Driver {
            alloc,
            cells,
            starts,
            statuses,
            room,
        };
        Ok((driver, row))
    }

    /// The requests that start the domains which the store says are to be started, by rising name.
    pub fn found(&self) -> &RequestList
        ensures { result.now ≡ self.now.starts }
    {
        &self.starts
    }

    /// What each status file said as the driver was opened; none where one said nothing.
    pub fn statuses(&self) -> &ListOf<Option<Status>>
        ensures { result.now ≡ self.now.statuses }
    {
        &self.statuses
    }

    /// Serves a request by a row: a domain's calls and reads, lists, and what a connection asks. The outcome says what the
    /// reply rests on. Its texts are filled in with words from `random`. It may wait for the turns of others, for a guest and
    /// for the store; while it asks one of these, it has no turn of a domain.
    ///
    /// Where a call began or ended a boot, or changed the state, the operation or the phase of a domain whose boot is live, the
    /// status file of the domain is written or removed before the row comes back. A fault there is counted in the row
    /// (`unkept_of`); the outcome does not depend on it.
    ///
    /// Networks, pools and registrations are not served: they are refused (206).
    pub fn call<R: Wait, D: Random>(
        &self,
        rt: &R,
        row: Row<F, K, G>,
        who: Who,
        request: &Request,
        random: &mut D,
    ) -> (Row<F, K, G>, Outcome)
        requires own { IsRowOf self.now row }
        requires ready { IsReadyRow row }
        ensures called { IsMadeOfDrawn (λ words. HasCalled F.told G.faults G.E.ends G.E.faults G.E.unheard F.faults who request.now words row result.0 result.1) (D.drawn random.old) (D.drawn random.new) }
        ensures outcome { HasOutcome (known_row row) (known_row result.0) request.now result.1 }
        ensures now { ReadsNow (known_row result.0) request.now result.1 }
        ensures gone { HasGone (known_row row) (known_row result.0) }
        ensures parts { KeepsParts row result.0 }
        ensures own { IsRowOf self.now result.0 }
        ensures ready { IsReadyRow result.0 }
    {
        serve(rt, self.alloc, &self.cells, row, who, request, random)
    }
}

impl<F: Files + Drop, K: Opening, G: Guests + Drop> Driver<F, K, G> {
    /// Makes so many rows of this one: itself, and new ones, whose passes are cut off its own and have seen as much. Each has a
    /// maker of guests of its own. Where there is no memory, or no maker for a new row, it comes back with the same passes.
    pub fn more(
        &self,
        row: Row<F, K, G>,
        rows: u32,
    ) -> Result<RowList<F, K, G>, (Row<F, K, G>, NoMemory)>
        requires some { 1 ≤ rows }
        requires own { IsRowOf self.now row }
        requires parts { HasRowParts rows row }
        requires ready { IsReadyRow row }
        ensures ok { IfOk result (λ all. BecomesMany F.told G.faults rows row all.list) }
        ensures own { IfOk result (λ all. All (IsRowOf self.now) all.list) }
        ensures ready { IfOk result (λ all. All IsReadyRow all.list) }
        ensures idle { IfOk result (λ all. IsIdleRow F.told row → All (IsIdleRow F.told) all.list) }
        ensures passes { IfErr result (λ e. KeepsPasses row e.0) }
        ensures failed { IfErr result (λ e. G.faults row.guests ≤ G.faults e.0.guests) }
    {
        more(self.alloc, &self.cells, row, rows)
    }
}

impl<F: Files + Drop, K: Opening, G: Guests + Drop> Driver<F, K, G> {
    /// Closes the driver with all of its rows, each of which is idle. It gives back the files, and what happened in each cell:
    /// what every pass has seen there begins it, and each mark in it is of one of these passes, or of nobody. It takes no
    /// memory.
    pub fn close(self, rows: RowList<F, K, G>) -> (F, Books)
        requires some { 0 < length rows.list }
        requires own { All (IsRowOf self) rows.list }
        requires idle { All (IsIdleRow F.told) rows.list }
        requires whole { IsWhole rows.list }
        ensures closed { HasClosed F.told rows.list result.0 result.1.list result.1.store result.1.cells.items }
        ensures crash { K.sound → KeepsAll (F.told result.0) result.1.store }
    {
        let Driver {
            alloc: _,
            cells,
            starts: _,
            statuses: _,
            room,
        } = self;
        close_cells(cells, rows, room)
    }
}
