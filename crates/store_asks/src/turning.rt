// The keeper is asked in turns of its cell.
ghost use Rattle.std.specs.Prelude.{◌≡◌, IfErr, IfOk, true};
ghost use Rattle.store_asks.specs.Turning.{HasAsked};

use crate::answering::answer_in;
use def_keeper::{Keeper, KeeperPass, Opening};
use files_disk::Files;
use std::alloc::Global;
use std::sync::Wait;
use turn_cell::TurnCell;
use virt_types::{Answer, Ask};

/// Takes a turn of the keeper's cell and answers an ask of a domain in it, as `answer_in` says. Where no ticket is
/// left, the pass comes back.
pub fn ask_store<R: Wait, F: Files + Drop, K: Opening>(
    rt: &R,
    alloc: Global,
    cell: &TurnCell<Keeper<F, K>>,
    pass: KeeperPass<F, K>,
    ask: &Ask,
) -> Result<(KeeperPass<F, K>, Option<Answer>), KeeperPass<F, K>>
    requires { pass.cell ≡ cell.now }
    ensures asked { IfOk result (λ r. HasAsked F.told F.faults ask.now r.1 pass r.0) }
    ensures spent { IfErr result (λ after. after ≡ record pass { spent = true }) }
{
    let mut turn = match cell.enter(rt, pass) {
        Ok(turn) => turn,
        Err((pass, _)) => return Err(pass),
    };
    let answer = answer_in(alloc, &mut turn, ask);
    Ok((cell.leave(turn), answer))
}
