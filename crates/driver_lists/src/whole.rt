// The domains of the list with their states, by the passes of a row.
ghost use Rattle.std.specs.Prelude.{◌≡◌};
ghost use Rattle.driver_cells.specs.Known.{known_row};
ghost use Rattle.driver_cells.specs.Parts.{KeepsParts};
ghost use Rattle.driver_cells.specs.Ready.{IsReadyRow};
ghost use Rattle.driver_cells.specs.OfOutcomes.{HasGone};
ghost use Rattle.pass_rows.specs.Rows.{IsOf};
ghost use Rattle.driver_lists.specs.Whole.{HasReadList};
ghost use Rattle.driver_lists.specs.Unmarked.{LeavesNoMark};

use crate::listing::list_domains;
use crate::rows::read_all;
use crate::stopping::Stop;
use def_keeper::Opening;
use driver_cells::{Cells, Row};
use files_disk::Files;
use monitor_link::Guests;
use pass_rows::{PassState, RestingPass, RowOf};
use std::alloc::Global;
use std::sync::Wait;
use virt_types::{DomainRowList, Front, NoMemory};

/// Takes the names from the list in one turn, leaves it, and then reads each domain in a turn of its cell. With the rows comes
/// the front of the list's history that told the names.
pub(crate) fn read_list<R: Wait, F: Files + Drop, K: Opening, G: Guests>(
    rt: &R,
    alloc: Global,
    cells: &Cells<F, K, G>,
    row: Row<F, K, G>,
) -> (Row<F, K, G>, Result<(DomainRowList, Front), Stop>)
    requires own { IsOf cells.now.list cells.now.store cells.now.domains.items row }
    requires ready { IsReadyRow row }
    ensures read { HasReadList (known_row row) (known_row result.0) result.1 }
    ensures gone { HasGone (known_row row) (known_row result.0) }
    ensures unmarked { LeavesNoMark row result.0 }
    ensures others { result.0 ≡ record row { list = result.0.list; domains = result.0.domains } }
    ensures parts { KeepsParts row result.0 }
    ensures own { IsOf cells.now.list cells.now.store cells.now.domains.items result.0 }
    ensures ready { IsReadyRow result.0 }
{
    let (list, store, domains, guests, unkept) = row.into_parts();
    let (pass, names, front) = match list_domains(rt, &cells.list, list.into_pass()) {
        Ok(listed) => listed,
        Err(pass) => {
            let list = RestingPass::new(pass, PassState::Spent);
            return (
                RowOf::of(list, store, domains, guests, unkept),
                Err(Stop::Spent),
            );
        }
    };
    let list = RestingPass::new(pass, PassState::Idle);
    match names {
        Ok(names) => {
            let cells = cells.domains.as_slice();
            let (domains, read) = read_all(rt, alloc, cells, domains, names.as_slice());
            let row = RowOf::of(list, store, domains, guests, unkept);
            match read {
                Ok(rows) => (row, Ok((rows, front))),
                Err(why) => (row, Err(why)),
            }
        }
        Err(NoMemory) => {
            let row = RowOf::of(list, store, domains, guests, unkept);
            (row, Err(Stop::NoMemory))
        }
    }
}
