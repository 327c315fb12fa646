// The titles of the domains of the store, in a turn.
ghost use Rattle.std.specs.Prelude.{◌≡◌, true, length, IfErr, IfOk};
ghost use Rattle.driver_cells.specs.OfOutcomes.{AreTitles, map_of};
ghost use Rattle.driver_lists.specs.Titling.{HasReadTitles};

use crate::titles::titles;
use def_keeper::{Keeper, KeeperPass, KeeperTurn, Opening};
use files_disk::Files;
use std::alloc::Global;
use std::sync::Wait;
use turn_cell::TurnCell;
use virt_types::{Front, NoMemory, TitleRowList};

// The titles, as the store is in this turn.
fn titles_in<F: Files, K: Opening>(
    alloc: Global,
    turn: &mut KeeperTurn<F, K>,
) -> Result<TitleRowList, NoMemory>
    ensures titles { IfOk result (AreTitles (map_of turn.old.value.history)) }
    ensures same { turn.new ≡ turn.old }
{
    titles(alloc, turn.value().map())
}

// How far the history of the store goes, in a turn.
fn front_in<F: Files, K: Opening>(turn: &mut KeeperTurn<F, K>) -> Front
    ensures chapter { result.chapter ≡ turn.old.value.history.chapter }
    ensures marks { result.marks ≡ length turn.old.value.history.marks }
    ensures same { turn.new ≡ turn.old }
{
    let store = turn.value();
    Front {
        chapter: store.chapter(),
        marks: store.marks(),
    }
}

/// Takes a turn at the store, and reads the titles; with the front of the history that it found. Where no ticket is left, the
/// pass comes back.
pub(crate) fn read_titles<R: Wait, F: Files + Drop, K: Opening>(
    rt: &R,
    alloc: Global,
    cell: &TurnCell<Keeper<F, K>>,
    pass: KeeperPass<F, K>,
) -> Result<(KeeperPass<F, K>, Result<TitleRowList, NoMemory>, Front), KeeperPass<F, K>>
    requires { pass.cell ≡ cell.now }
    ensures read { IfOk result (λ r. HasReadTitles F.told r.1 r.2 pass r.0) }
    ensures spent { IfErr result (λ after. after ≡ record pass { spent = true }) }
{
    let mut turn = match cell.enter(rt, pass) {
        Ok(turn) => turn,
        Err((pass, _)) => return Err(pass),
    };
    let rows = titles_in(alloc, &mut turn);
    let front = front_in(&mut turn);
    Ok((cell.leave(turn), rows, front))
}
