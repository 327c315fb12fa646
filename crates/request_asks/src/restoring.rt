// Restores: the image is read in a turn of the store.
ghost use Rattle.std.specs.Prelude.{◌≡◌, IfErr, IfOk, true};
ghost use Rattle.outcome_spec.specs.Histories.{front_of};
ghost use Rattle.virt_types.specs.Drawn.{IsMadeOfDrawn};
ghost use Rattle.virt_types.specs.declared.request.Request.TheVariants as request;
ghost use Rattle.request_asks.specs.Found.{IsFound, RestoreLeaves};
ghost use Rattle.request_asks.specs.Turns.{HasRead, IsRestoredBy, IsRestoredGuest};

use crate::asked::Asked;
use crate::claiming::{Claimed, claim};
use crate::naming::name_of;
use def_keeper::{Keeper, KeeperPass, KeeperTurn, Opening};
use files_disk::Files;
use outcome_spec::{SavedGuest, SavedRead, Task, read_saved_in};
use std::alloc::Global;
use std::sync::Wait;
use turn_cell::TurnCell;
use virt_types::{Boxed, Call, Front, Name, NoMemory, OrNoMemory, Random, Text};

/// How far the history has come in a turn.
fn front_in<F: Files, K: Opening>(turn: &mut KeeperTurn<F, K>) -> Front
    ensures front { result ≡ front_of turn.old.value.history }
    ensures same { turn.new ≡ turn.old }
{
    let keeper = turn.value();
    Front {
        chapter: keeper.chapter(),
        marks: keeper.marks(),
    }
}

/// Reads an image in a turn of its own, and says where the mark of that is. Where no ticket is left, the pass comes
/// back.
fn read_guest<W: Wait, F: Files + Drop, K: Opening>(
    rt: &W,
    alloc: Global,
    store: &TurnCell<Keeper<F, K>>,
    pass: KeeperPass<F, K>,
    name: &Name,
) -> Result<(KeeperPass<F, K>, SavedRead, Front), KeeperPass<F, K>>
    requires { pass.cell ≡ store.now }
    ensures read { IfOk result (λ r. HasRead F.told F.faults name.now r.1 r.2 pass r.0) }
    ensures spent { IfErr result (λ after. after ≡ record pass { spent = true }) }
{
    let mut turn = match store.enter(rt, pass) {
        Ok(turn) => turn,
        Err((pass, _)) => return Err(pass),
    };
    let saved = read_saved_in(alloc, &mut turn, name);
    let front = front_in(&mut turn);
    Ok((store.leave(turn), saved, front))
}

// A guest that was read, with what its definition lacks.
fn restore_guest<R: Random>(alloc: Global, guest: SavedGuest, random: &mut R) -> Asked
    ensures { IsMadeOfDrawn (λ words. IsRestoredGuest words guest result) (R.drawn random.old) (R.drawn random.new) }
{
    let (read, running, saved) = guest.into_parts();
    let saved = match Boxed::new(alloc, saved) {
        Ok(saved) => saved,
        Err(NoMemory) => {
            drop(read);
            return Asked::NoMemory;
        }
    };
    match claim(alloc, read, random) {
        Ok(claimed) => {
            let Claimed { hold, definition } = claimed;
            Asked::Task {
                hold,
                task: Task::Run(Call::Restore {
                    definition,
                    running,
                    saved,
                }),
            }
        }
        Err(NoMemory) => {
            drop(saved);
            Asked::NoMemory
        }
    }
}

/// What comes of a read whose mark is at this place.
fn restored<R: Random>(alloc: Global, saved: SavedRead, front: Front, random: &mut R) -> Asked
    ensures { IsMadeOfDrawn (λ words. IsRestoredBy words saved front result) (R.drawn random.old) (R.drawn random.new) }
{
    match saved {
        Ok(guest) => restore_guest(alloc, guest, random),
        Err(OrNoMemory::Fault(why)) => Asked::NotRestored { why, front },
        Err(OrNoMemory::NoMemory) => Asked::NoMemory,
    }
}

/// DOMAIN_RESTORE: the name first, and then the image of this name.
pub(crate) fn restore<W: Wait, F: Files + Drop, K: Opening, R: Random>(
    rt: &W,
    alloc: Global,
    store: &TurnCell<Keeper<F, K>>,
    pass: KeeperPass<F, K>,
    from: &Text,
    random: &mut R,
) -> (KeeperPass<F, K>, Asked)
    requires { pass.cell ≡ store.now }
    ensures found { IsMadeOfDrawn (λ words. IsFound pass result.0 words (request.DomainRestore from.now) result.1) (R.drawn random.old) (R.drawn random.new) }
    ensures leaves { RestoreLeaves F.told F.faults from.now result.1 pass result.0 }
{
    let name = match name_of(alloc, from) {
        Ok(name) => name,
        Err(why) => return (pass, Asked::refused(why)),
    };
    match read_guest(rt, alloc, store, pass, &name) {
        Ok(read) => {
            let (pass, saved, front) = read;
            (pass, restored(alloc, saved, front, random))
        }
        Err(pass) => (pass, Asked::Spent),
    }
}
