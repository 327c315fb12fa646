// Files of version 1 are put again.
ghost use Rattle.std.specs.Prelude.{◌≡◌, ◌≤◌, ◌<◌, All, IfErr, None, OnOk, length};
ghost use Rattle.def_keeper.specs.Calls.{CanBeMade};
ghost use Rattle.def_keeper.specs.Chapters.{first_chapter, most_marks};
ghost use Rattle.store_spec.specs.Changes as spec;
ghost use Rattle.driver_store.specs.Again.{HasPut, IsNotPut};
ghost use Rattle.driver_store.specs.Faults.{of_change, of_store};

use crate::fault::DriverFault;
use def_keeper::{Keeper, Opening, StoreFault};
use files_disk::Files;
use store_spec::{BookKind, Change};
use virt_types::{ListOf, OrNoMemory};

// The kind of object that a change is of.
fn kind_of(change: &Change) -> BookKind
    ensures { result ≡ spec.kind_of change.now }
{
    match change {
        Change::Put { kind, .. } => *kind,
        Change::Drop { kind, .. } => *kind,
    }
}

// The fault of the store at a change to an object of this kind, as one of the driver's.
fn of_store(kind: BookKind, fault: StoreFault) -> DriverFault
    ensures { result ≡ of_store kind fault }
{
    match fault {
        StoreFault::Device => DriverFault::Device,
        StoreFault::NameKept { one, two } => DriverFault::TwoOfOneName { kind, one, two },
    }
}

// The same, where there may have been no memory.
fn of_change(kind: BookKind, fault: OrNoMemory<StoreFault>) -> OrNoMemory<DriverFault>
    ensures { result ≡ of_change kind fault }
{
    match fault {
        OrNoMemory::Fault(fault) => OrNoMemory::Fault(of_store(kind, fault)),
        OrNoMemory::NoMemory => OrNoMemory::NoMemory,
    }
}

/// Makes these changes in a keeper that was just opened, one after another, up to the first that fails.
pub(crate) fn put_again<F: Files, K: Opening>(
    keeper: &mut Keeper<F, K>,
    again: ListOf<Change>,
) -> Result<(), OrNoMemory<DriverFault>>
    requires begun { keeper.old.history ≡ first_chapter (F.told keeper.old.files) keeper.old.map }
    requires doubt { keeper.old.doubt ≡ None }
    requires few { length again < most_marks }
    requires made { All CanBeMade again }
    ensures ok { OnOk result (HasPut again keeper.old keeper.new) }
    ensures err { IfErr result (IsNotPut F.faults again keeper.old keeper.new) }
    ensures faults { F.faults keeper.old.files ≤ F.faults keeper.new.files }
{
    for change in again.into_vec() {
        let kind = kind_of(&change);
        match keeper.change(change) {
            Ok(_) => {}
            Err(fault) => return Err(of_change(kind, fault)),
        }
    }
    Ok(())
}
