// A request is served by a row.
ghost use Rattle.std.specs.Prelude.{◌≡◌};
ghost use Rattle.driver.specs.Called.{CameTo, HasCalled, HasListed};
ghost use Rattle.held_tasks.specs.OfRows.{IsReadyRow, KeepsParts, known_row};
ghost use Rattle.held_tasks.specs.OfOutcomes.{HasGone, HasOutcome, ReadsNow};
ghost use Rattle.pass_rows.specs.Rows.{IsOf};
ghost use Rattle.virt_types.specs.Drawn.{IsMadeOfDrawn};

use crate::answers::{of_nobody, of_store};
use driver_lists::{list_all, list_defined, tell_titles};
use files_disk::Files;
use held_tasks::{Cells, Outcome, Row, run_out, serve_held, state_of};
use monitor_link::Guests;
use pass_rows::{RestingPass, RowOf};
use refusals::no_memory;
use request_asks::{Asked, Listing, Opening, read_request};
use std::alloc::Global;
use std::sync::Wait;
use virt_types::{Random, Reply, Request, Value, Who};

// Lists domains.
fn list<R: Wait, G: Guests, F: Files + Drop, K: Opening>(
    rt: &R,
    alloc: Global,
    cells: &Cells<F, K, G>,
    row: Row<F, K, G>,
    listing: Listing,
) -> (Row<F, K, G>, Outcome)
    requires own { IsOf cells.now.list cells.now.store cells.now.domains.items row }
    requires ready { IsReadyRow row }
    ensures listed { HasListed listing row result.0 result.1 }
    ensures gone { HasGone (known_row row) (known_row result.0) }
    ensures parts { KeepsParts row result.0 }
    ensures own { IsOf cells.now.list cells.now.store cells.now.domains.items result.0 }
    ensures ready { IsReadyRow result.0 }
{
    match listing {
        Listing::All => list_all(rt, alloc, cells, row),
        Listing::Idle { most } => list_defined(rt, alloc, cells, row, most),
        Listing::Titles => tell_titles(rt, alloc, cells, row),
    }
}

// What is done of what was asked.
fn serve_asked<R: Wait, G: Guests, F: Files + Drop, K: Opening>(
    rt: &R,
    alloc: Global,
    cells: &Cells<F, K, G>,
    row: Row<F, K, G>,
    who: Who,
    asked: Asked,
) -> (Row<F, K, G>, Outcome)
    requires own { IsOf cells.now.list cells.now.store cells.now.domains.items row }
    requires ready { IsReadyRow row }
    ensures came { CameTo F.told G.faults G.E.ends G.E.faults G.E.unheard F.faults who asked row result.0 result.1 }
    ensures gone { HasGone (known_row row) (known_row result.0) }
    ensures parts { KeepsParts row result.0 }
    ensures own { IsOf cells.now.list cells.now.store cells.now.domains.items result.0 }
    ensures ready { IsReadyRow result.0 }
{
    match asked {
        Asked::Task { hold, task } => serve_held(rt, alloc, cells, row, who, &hold, &task),
        Asked::List(listing) => list(rt, alloc, cells, row, listing),
        Asked::Connection => (row, of_nobody(Reply::Ok(Value::Nothing))),
        Asked::Refused(why) => (row, of_nobody(Reply::No(why))),
        Asked::NotRestored { why, front } => (row, of_store(why, front)),
        Asked::NoMemory => (row, of_nobody(no_memory(alloc))),
        Asked::Spent => (row, run_out(alloc)),
    }
}

/// Serves a request by the passes of a row: what it asks is found out, and then that is done. Its texts are filled in with
/// words from `random`, and a restore reads its image first, in a turn of the store.
pub(crate) fn serve<R: Wait, D: Random, G: Guests, F: Files + Drop, K: Opening>(
    rt: &R,
    alloc: Global,
    cells: &Cells<F, K, G>,
    row: Row<F, K, G>,
    who: Who,
    request: &Request,
    random: &mut D,
) -> (Row<F, K, G>, Outcome)
    requires own { IsOf cells.now.list cells.now.store cells.now.domains.items row }
    requires ready { IsReadyRow row }
    ensures called { IsMadeOfDrawn (λ words. HasCalled F.told G.faults G.E.ends G.E.faults G.E.unheard F.faults who request.now words row result.0 result.1) (D.drawn random.old) (D.drawn random.new) }
    ensures outcome { HasOutcome (known_row row) (known_row result.0) request.now result.1 }
    ensures now { ReadsNow (known_row result.0) request.now result.1 }
    ensures gone { HasGone (known_row row) (known_row result.0) }
    ensures parts { KeepsParts row result.0 }
    ensures own { IsOf cells.now.list cells.now.store cells.now.domains.items result.0 }
    ensures ready { IsReadyRow result.0 }
{
    let (list, store, domains, guests, unkept) = row.into_parts();
    let (pass, asked) = read_request(rt, alloc, &cells.store, store.into_pass(), request, random);
    let state = state_of(&pass);
    let row = RowOf::of(list, RestingPass::new(pass, state), domains, guests, unkept);
    serve_asked(rt, alloc, cells, row, who, asked)
}
