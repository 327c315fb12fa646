// The requests that list domains.
ghost use Rattle.std.specs.Prelude.{◌≡◌};
ghost use Rattle.driver_cells.specs.Known.{known_row};
ghost use Rattle.driver_cells.specs.Parts.{KeepsParts};
ghost use Rattle.driver_cells.specs.Ready.{IsReadyRow};
ghost use Rattle.driver_cells.specs.OfOutcomes.{HasGone, HasOutcome, ReadsNow};
ghost use Rattle.pass_rows.specs.Rows.{IsOf};
ghost use Rattle.virt_types.specs.declared.request.Request.TheVariants as request;
ghost use Rattle.driver_lists.specs.Unmarked.{LeavesNoMark};

use crate::stopping::{Stop, stopped};
use crate::telling::idle_names;
use crate::whole::read_list;
use def_keeper::Opening;
use driver_cells::{Cells, Outcome, Row};
use files_disk::Files;
use monitor_link::Guests;
use std::alloc::Global;
use std::sync::Wait;
use virt_types::{CellName, ListOf, NoMemory, Reply, Value};

/// All domains by rising name, with their states. The list gives the names and slots in one turn; each row is read in a turn
/// of its cell after that. A domain that is not there any more has no row.
pub fn list_all<R: Wait, F: Files + Drop, K: Opening, G: Guests>(
    rt: &R,
    alloc: Global,
    cells: &Cells<F, K, G>,
    row: Row<F, K, G>,
) -> (Row<F, K, G>, Outcome)
    requires own { IsOf cells.now.list cells.now.store cells.now.domains.items row }
    requires ready { IsReadyRow row }
    ensures outcome { HasOutcome (known_row row) (known_row result.0) request.ListAll result.1 }
    ensures now { ReadsNow (known_row result.0) request.ListAll result.1 }
    ensures gone { HasGone (known_row row) (known_row result.0) }
    ensures unmarked { LeavesNoMark row result.0 }
    ensures others { result.0 ≡ record row { list = result.0.list; domains = result.0.domains } }
    ensures parts { KeepsParts row result.0 }
    ensures own { IsOf cells.now.list cells.now.store cells.now.domains.items result.0 }
    ensures ready { IsReadyRow result.0 }
{
    let (row, read) = read_list(rt, alloc, cells, row);
    match read {
        Ok((rows, front)) => {
            let outcome = Outcome {
                reply: Reply::Ok(Value::Domains(rows)),
                cell: CellName::List,
                front,
            };
            (row, outcome)
        }
        Err(why) => (row, stopped(alloc, why)),
    }
}

/// The names of the domains that are not active, by rising name: at most so many. They are found as by `list_all`.
pub fn list_defined<R: Wait, F: Files + Drop, K: Opening, G: Guests>(
    rt: &R,
    alloc: Global,
    cells: &Cells<F, K, G>,
    row: Row<F, K, G>,
    most: i32,
) -> (Row<F, K, G>, Outcome)
    requires own { IsOf cells.now.list cells.now.store cells.now.domains.items row }
    requires ready { IsReadyRow row }
    ensures outcome { HasOutcome (known_row row) (known_row result.0) (request.ListDefinedDomains most) result.1 }
    ensures now { ReadsNow (known_row result.0) (request.ListDefinedDomains most) result.1 }
    ensures gone { HasGone (known_row row) (known_row result.0) }
    ensures unmarked { LeavesNoMark row result.0 }
    ensures others { result.0 ≡ record row { list = result.0.list; domains = result.0.domains } }
    ensures parts { KeepsParts row result.0 }
    ensures own { IsOf cells.now.list cells.now.store cells.now.domains.items result.0 }
    ensures ready { IsReadyRow result.0 }
{
    let (row, read) = read_list(rt, alloc, cells, row);
    match read {
        Ok((rows, front)) => match idle_names(alloc, rows.as_slice(), most.unsigned_abs()) {
            Ok(names) => {
                let outcome = Outcome {
                    reply: Reply::Ok(Value::Names(ListOf::of(names))),
                    cell: CellName::List,
                    front,
                };
                (row, outcome)
            }
            Err(NoMemory) => (row, stopped(alloc, Stop::NoMemory)),
        },
        Err(why) => (row, stopped(alloc, why)),
    }
}
