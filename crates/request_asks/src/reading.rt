// What a request asks.
ghost use Rattle.std.specs.Prelude.{◌≡◌};
ghost use Rattle.outcome_spec.specs.Rows.{IsLater, level};
ghost use Rattle.turn_cell.specs.Turning.{SamePass};
ghost use Rattle.virt_types.specs.Drawn.{IsMadeOfDrawn};
ghost use Rattle.request_asks.specs.Found.{IsFound, Leaves, restored_from};
ghost use Rattle.request_asks.specs.Passes.{known};

use crate::asked::Asked;
use crate::restoring::restore;
use crate::words::read_words;
use def_keeper::{Keeper, KeeperPass, Opening};
use files_disk::Files;
use std::alloc::Global;
use std::sync::Wait;
use turn_cell::TurnCell;
use virt_types::{Random, Request};

/// Finds out what a request asks: its numbers, its names and its texts are looked at in this order, and what a definition
/// or a device lacks is filled in. A restore reads its image, in one turn of the store; for no other request anything is
/// asked of the store. Networks, pools and registrations are not built: they are refused (206).
///
/// `NoMemory` is answered where there was no memory for what is asked or for the refusal. That there was none is no fact
/// that a clause could name.
pub fn read_request<W: Wait, F: Files + Drop, K: Opening, R: Random>(
    rt: &W,
    alloc: Global,
    store: &TurnCell<Keeper<F, K>>,
    pass: KeeperPass<F, K>,
    request: &Request,
    random: &mut R,
) -> (KeeperPass<F, K>, Asked)
    requires own { pass.cell ≡ store.now }
    ensures found { IsMadeOfDrawn (λ words. IsFound pass result.0 words request.now result.1) (R.drawn random.old) (R.drawn random.new) }
    ensures leaves { Leaves F.told F.faults (restored_from request.now) result.1 pass result.0 }
    ensures same { SamePass pass result.0 }
    ensures later { IsLater level (known pass) (known result.0) }
{
    match request {
        Request::DomainRestore { from } => restore(rt, alloc, store, pass, from, random),
        other => (pass, read_words(alloc, other, random)),
    }
}
