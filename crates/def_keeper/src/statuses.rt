// The status files of a directory are reported, and removed.
ghost use Rattle.std.specs.Prelude.{◌≡◌, ◌≤◌, [], IsErrOf, OnOk};
ghost use Rattle.outside_spec.specs.Faults.{HasCause, Rose};
ghost use Rattle.virt_types.specs.Below.types_base.declared.memory.Fault.TheVariants as fault;
ghost use Rattle.files_disk.specs.Telling.{IsListed};
ghost use Rattle.def_keeper.specs.Opening.{IsInOrder};
ghost use Rattle.def_keeper.specs.Tidying.{HasRemovedAt, HasReportedAt, Removes, ReportsAt, Tidies};

use files_disk::Files;
use std::alloc::Global;
use store_reading::{is_status_name, read_status};
use virt_types::{Failed, Fault, ListOf, NoMemory, Status, Text};

// Reports the next file, where it is a status file.
fn report<F: Files>(
    alloc: Global,
    files: &mut F,
    statuses: &mut ListOf<Option<Status>>,
    name: &Text,
) -> Result<(), Fault>
    ensures ok { OnOk result (ReportsAt (F.told files.old) name.now statuses.old statuses.new) }
    ensures told { F.told files.new ≡ F.told files.old }
    ensures cause { IsErrOf result fault.Failed → Rose (F.faults files.old) (F.faults files.new) }
    ensures faults { F.faults files.old ≤ F.faults files.new }
{
    if !is_status_name(name.as_bytes()) {
        return Ok(());
    }
    let bytes = match files.read(name) {
        Ok(Some(bytes)) => bytes,
        Ok(None) => return Ok(()),
        Err(Fault::Failed) => return Err(Fault::Failed),
        Err(Fault::NoMemory) => return Err(Fault::NoMemory),
    };
    match read_status(alloc, name.as_bytes(), bytes.as_slice()) {
        Ok(status) => match statuses.push(status) {
            Ok(()) => Ok(()),
            Err(NoMemory) => Err(Fault::NoMemory),
        },
        Err(NoMemory) => Err(Fault::NoMemory),
    }
}

/// Reports the status files with these names.
pub(crate) fn report_all<F: Files>(
    alloc: Global,
    files: &mut F,
    statuses: &mut ListOf<Option<Status>>,
    names: &[Text],
) -> Result<(), Fault>
    requires statuses { statuses.old ≡ [] }
    requires listed { IsListed (F.told files.old) names.now }
    requires ordered { IsInOrder names.now }
    ensures ok { OnOk result (HasReportedAt (F.told files.old) names.now statuses.new) }
    ensures told { F.told files.new ≡ F.told files.old }
    ensures cause { IsErrOf result fault.Failed → Rose (F.faults files.old) (F.faults files.new) }
    ensures faults { F.faults files.old ≤ F.faults files.new }
{
    for name in names {
        match report(alloc, files, statuses, name) {
            Ok(()) => {}
            Err(Fault::Failed) => return Err(Fault::Failed),
            Err(Fault::NoMemory) => return Err(Fault::NoMemory),
        }
    }
    Ok(())
}

// Removes the next file, where it is a status file.
fn remove<F: Files>(files: &mut F, name: &Text) -> Result<(), Failed>
    ensures told { Removes name.now (F.told files.old) (F.told files.new) result }
    ensures cause { HasCause (F.faults files.old) (F.faults files.new) result }
{
    if !is_status_name(name.as_bytes()) {
        return Ok(());
    }
    files.remove(name)
}

/// Removes the status files with these names.
pub(crate) fn remove_all<F: Files>(files: &mut F, names: &[Text]) -> Result<(), Failed>
    ensures ok { OnOk result (HasRemovedAt (F.told files.old) names.now (F.told files.new)) }
    ensures told { Tidies (F.told files.old) (F.told files.new) }
    ensures cause { HasCause (F.faults files.old) (F.faults files.new) result }
{
    for name in names {
        match remove(files, name) {
            Ok(()) => {}
            Err(Failed) => return Err(Failed),
        }
    }
    Ok(())
}
