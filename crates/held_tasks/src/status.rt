// The status of a domain's boot, read before a call and after it; and the store, which is told what changed of it.
ghost use Rattle.std.specs.Prelude.{◌≡◌, IfOk};
ghost use Rattle.boot_status.specs.Reporting.{boot_status};
ghost use Rattle.driver_cells.specs.OfCells.{history_of};
ghost use Rattle.driver_cells.specs.OfObjects.{IsLegalHistory};
ghost use Rattle.driver_cells.specs.OfOutcomes.{state_of};
ghost use Rattle.held_tasks.specs.Statuses.{HasLooked, HasReadStatus, IsTold};
ghost use Rattle.turn_cell.specs.Turning.{SamePass};

use boot_status::{Keeper, KeeperPass, Opening, StatusKept, keep_status, status_of};
use driver_cells::{DomainCell, DomainObj, DomainPass};
use files_disk::Files;
use list_replies::Task;
use monitor_link::Guests;
use std::sync::Wait;
use turn_cell::{CellOf, Turn, TurnCell};
use virt_types::{NoMemory, Status};

/// What was read of the status of a domain's boot.
#[derive(Drop)]
pub enum StatusRead {
    /// It was not read, since the task changes nothing.
    NotDue,
    /// The status of the boot that is live; none where none is.
    Read(Option<Status>),
    /// There was no memory for it.
    NoMemory,
    /// No ticket was left.
    Spent,
}

// The status, as the domain is in this turn, whose history is legal.
fn status_in<G: Guests>(turn: &mut Turn<DomainCell<G>>) -> Result<Option<Status>, NoMemory>
    ensures legal { IsLegalHistory (history_of turn.old.value) }
    ensures status { IfOk result (λ status. status ≡ boot_status (state_of (history_of turn.old.value))) }
    ensures same { turn.new ≡ turn.old }
{
    turn.value().holds();
    status_of(turn.value().state())
}

// Takes a turn of the domain, and reads the status in it.
fn read_status<R: Wait, G: Guests>(
    rt: &R,
    cell: &TurnCell<DomainCell<G>>,
    pass: DomainPass<G>,
) -> (DomainPass<G>, StatusRead)
    requires { pass.cell ≡ cell.now }
    ensures read { HasReadStatus pass result.0 result.1 }
    ensures same { SamePass pass result.0 }
{
    let mut turn = match cell.enter(rt, pass) {
        Ok(turn) => turn,
        Err((pass, _)) => return (pass, StatusRead::Spent),
    };
    let status = status_in(&mut turn);
    let pass = cell.leave(turn);
    match status {
        Ok(status) => (pass, StatusRead::Read(status)),
        Err(NoMemory) => (pass, StatusRead::NoMemory),
    }
}

/// Reads the status of the domain's boot in a turn of the domain, where the task is a call.
pub(crate) fn look<R: Wait, G: Guests>(
    rt: &R,
    domain: &DomainObj<G>,
    pass: DomainPass<G>,
    task: &Task,
) -> (DomainPass<G>, StatusRead)
    requires { pass.cell ≡ domain.now }
    ensures looked { HasLooked task.now pass result.0 result.1 }
    ensures same { SamePass pass result.0 }
{
    match task {
        Task::Run(_) => read_status(rt, domain.turn_cell(), pass),
        _ => (pass, StatusRead::NotDue),
    }
}

/// Tells the store what changed of the status between two readings, in a turn of the pass. Where it was not read both times,
/// nothing is done.
pub(crate) fn tell<R: Wait, F: Files + Drop, K: Opening>(
    rt: &R,
    store: &TurnCell<Keeper<F, K>>,
    pass: KeeperPass<F, K>,
    before: StatusRead,
    after: StatusRead,
) -> (KeeperPass<F, K>, StatusKept)
    requires { pass.cell ≡ store.now }
    ensures told { IsTold F.told F.faults before after pass result.0 result.1 }
    ensures same { SamePass pass result.0 }
{
    match before {
        StatusRead::NotDue => (pass, StatusKept::Unchanged),
        StatusRead::NoMemory => (pass, StatusKept::NoMemory),
        StatusRead::Spent => (pass, StatusKept::Spent),
        StatusRead::Read(before) => match after {
            StatusRead::NotDue => (pass, StatusKept::Unchanged),
            StatusRead::NoMemory => (pass, StatusKept::NoMemory),
            StatusRead::Spent => (pass, StatusKept::Spent),
            StatusRead::Read(after) => keep_status(rt, store, pass, &before, &after),
        },
    }
}
