// The request that gives titles.
ghost use Rattle.std.specs.Prelude.{◌≡◌};
ghost use Rattle.driver_cells.specs.Known.{known_row};
ghost use Rattle.driver_cells.specs.Parts.{KeepsParts};
ghost use Rattle.driver_cells.specs.Ready.{IsReadyRow};
ghost use Rattle.driver_cells.specs.OfOutcomes.{HasGone, HasOutcome, ReadsNow};
ghost use Rattle.pass_rows.specs.Rows.{IsOf};
ghost use Rattle.virt_types.specs.declared.request.Request.TheVariants as request;
ghost use Rattle.driver_lists.specs.Unmarked.{LeavesNoMark};

use crate::stopping::{Stop, stopped};
use crate::store::read_titles;
use def_keeper::Opening;
use driver_cells::{Cells, Outcome, Row};
use files_disk::Files;
use monitor_link::Guests;
use pass_rows::{PassState, RestingPass, RowOf};
use std::alloc::Global;
use std::sync::Wait;
use virt_types::{CellName, NoMemory, Reply, Value};

/// The domains that the store keeps, by rising name, with their titles.
pub fn tell_titles<R: Wait, F: Files + Drop, K: Opening, G: Guests>(
    rt: &R,
    alloc: Global,
    cells: &Cells<F, K, G>,
    row: Row<F, K, G>,
) -> (Row<F, K, G>, Outcome)
    requires own { IsOf cells.now.list cells.now.store cells.now.domains.items row }
    requires ready { IsReadyRow row }
    ensures outcome { HasOutcome (known_row row) (known_row result.0) request.Titles result.1 }
    ensures now { ReadsNow (known_row result.0) request.Titles result.1 }
    ensures gone { HasGone (known_row row) (known_row result.0) }
    ensures unmarked { LeavesNoMark row result.0 }
    ensures others { result.0 ≡ record row { store = result.0.store } }
    ensures parts { KeepsParts row result.0 }
    ensures own { IsOf cells.now.list cells.now.store cells.now.domains.items result.0 }
    ensures ready { IsReadyRow result.0 }
{
    let (list, store, domains, guests, unkept) = row.into_parts();
    let (pass, rows, front) = match read_titles(rt, alloc, &cells.store, store.into_pass()) {
        Ok(read) => read,
        Err(pass) => {
            let store = RestingPass::new(pass, PassState::Spent);
            let row = RowOf::of(list, store, domains, guests, unkept);
            return (row, stopped(alloc, Stop::Spent));
        }
    };
    let store = RestingPass::new(pass, PassState::Idle);
    let row = RowOf::of(list, store, domains, guests, unkept);
    match rows {
        Ok(rows) => {
            let outcome = Outcome {
                reply: Reply::Ok(Value::Titles(rows)),
                cell: CellName::Store,
                front,
            };
            (row, outcome)
        }
        Err(NoMemory) => (row, stopped(alloc, Stop::NoMemory)),
    }
}
