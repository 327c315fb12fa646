// A store is opened and read, and its files of version 1 are put again.
ghost use Rattle.std.specs.Prelude.{◌≡◌, ◌≤◌, IfErr, IfOk};
ghost use Rattle.def_keeper.specs.Opened.{IsSureAt};
ghost use Rattle.def_map.specs.Map.{found};
ghost use Rattle.driver_store.specs.Faults.{of_found};
ghost use Rattle.driver_store.specs.Reading.{HasOpened, HasRead, IsBegun};
ghost use Rattle.driver_store.specs.Stopped.{IsLeft, IsNotOpened};

use crate::again::put_again;
use crate::fault::{DriverFault, of_found, of_opening};
use def_keeper::{Found, Keeper, Opening};
use files_disk::Files;
use found_domains::{FoundDomain, FoundDomains, read_found};
use std::alloc::Global;
use virt_types::{ListOf, OrNoMemory};

/// A store that was opened, and what it holds.
struct ReadStore<F: Files, K: Opening> {
    keeper: Keeper<F, K>,
    finds: Found,
    read: FoundDomains,
}

/// A store that was opened, in which no file of version 1 is left, and its domains by rising name.
pub struct OpenStore<F: Files, K: Opening> {
    /// The store.
    pub keeper: Keeper<F, K>,
    /// What its directory held.
    pub finds: Found,
    /// Its domains.
    pub domains: ListOf<FoundDomain>,
}

// Opens a store, and reads what it holds. Where it is not served the files come back, tidied at most.
fn read_store<F: Files + Drop, K: Opening>(
    alloc: Global,
    files: F,
) -> Result<ReadStore<F, K>, (F, OrNoMemory<DriverFault>)>
    requires sound { K.sound → IsSureAt (F.told files) }
    ensures ok { IfOk result (λ store. HasRead (F.told files) (F.told store.keeper.files) (found store.keeper.map) store.finds store.read) }
    ensures begun { IfOk result (λ store. IsBegun F.told store.keeper) }
    ensures faults { IfOk result (λ store. F.faults files ≤ F.faults store.keeper.files) }
    ensures err { IfErr result (λ e. IsLeft F.told F.faults files e.1 e.0) }
{
    let (keeper, finds) = match Keeper::open(alloc, files) {
        Ok(opened) => opened,
        Err((files, fault)) => return Err((files, of_opening(fault))),
    };
    match read_found(alloc, keeper.map(), finds.definitions.as_slice()) {
        Ok(read) => Ok(ReadStore {
            keeper,
            finds,
            read,
        }),
        Err(fault) => {
            drop(finds);
            let (files, _) = keeper.close();
            Err((files, of_found(fault)))
        }
    }
}

/// Opens a store, reads what it holds, and puts its files of version 1 again.
pub fn open_store<F: Files + Drop, K: Opening>(
    alloc: Global,
    files: F,
) -> Result<OpenStore<F, K>, (F, OrNoMemory<DriverFault>)>
    requires sound { K.sound → IsSureAt (F.told files) }
    ensures ok { IfOk result (λ store. HasOpened F.told files store.finds store.domains store.keeper) }
    ensures err { IfErr result (λ e. IsNotOpened F.told F.faults K.sound files e.1 e.0) }
{
    let ReadStore {
        mut keeper,
        finds,
        read,
    } = match read_store(alloc, files) {
        Ok(store) => store,
        Err(refused) => return Err(refused),
    };
    let (domains, again) = read.into_parts();
    match put_again(&mut keeper, again) {
        Ok(()) => Ok(OpenStore {
            keeper,
            finds,
            domains,
        }),
        Err(fault) => {
            drop(finds);
            drop(domains);
            let (files, _) = keeper.close();
            Err((files, fault))
        }
    }
}
