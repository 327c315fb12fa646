// A directory is examined: what each of its files is, with nothing changed.
ghost use Rattle.std.specs.Prelude.{◌≡◌, ◌≤◌, ◌++◌, [], ◌∷◌, IfOk, IsErrOf, OnOk};
ghost use Rattle.outside_spec.specs.Faults.{Rose};
ghost use Rattle.virt_types.specs.Below.types_base.declared.memory.Fault.TheVariants as fault;
ghost use Rattle.files_disk.specs.Telling.{IsListed};
ghost use Rattle.def_keeper.specs.Examining.{IsExaminedAt};
ghost use Rattle.def_keeper.specs.Judging.{AddsDefinition, AddsStatus, HasDefinitionsAt, HasStatusesAt, FoundBy, IsNewName, Judges, TellsFound};
ghost use Rattle.def_keeper.specs.Opening.{IsInOrder};

use crate::listing::listed;
use crate::report::{Finding, Report, ReportList};
use def_map::{Keyed, key_of};
use files_disk::Files;
use std::alloc::Global;
use store_reading::{
    is_definition_name, is_status_name, read_definition, read_definition_name, read_status,
};
use store_spec::{BookKind, Entry};
use virt_types::{Fault, ListOf, Name, NoMemory, Status, Text, TryCopy, Uuid};

// Whether the name is new among those of its kind. It is one of them from now on.
fn is_new(
    alloc: Global,
    names: &mut Keyed<()>,
    kind: BookKind,
    name: &Name,
) -> Result<bool, NoMemory>
    ensures { IfOk result (IsNewName kind name.now names.old names.new) }
{
    let key = key_of(alloc, kind, name)?;
    if names.get(key.as_slice()).is_some() {
        return Ok(false);
    }
    names.insert(key, ())?;
    Ok(true)
}

// What the file of a definition of this kind and identifier is found to be, by its entry.
fn entry_found(
    alloc: Global,
    names: &mut Keyed<()>,
    kind: BookKind,
    uuid: Uuid,
    entry: Entry,
) -> Result<Finding, NoMemory>
    ensures { IfOk result (FoundBy kind uuid entry.name names.old names.new) }
{
    let Entry { name, .. } = entry;
    match is_new(alloc, names, kind, &name) {
        Ok(true) => Ok(Finding::Ok { kind, name, uuid }),
        Ok(false) => Ok(Finding::Damaged),
        Err(NoMemory) => Err(NoMemory),
    }
}

// What a file is found to be whose name ends in `.def`, after files with these names of objects.
fn definition_found(
    alloc: Global,
    names: &mut Keyed<()>,
    file: &Text,
    bytes: &[u8],
) -> Result<Finding, NoMemory>
    ensures { IfOk result (Judges file.now bytes.now names.old names.new) }
{
    let (kind, uuid) = match read_definition_name(file.as_bytes()) {
        Some(key) => key,
        None => return Ok(Finding::Damaged),
    };
    match read_definition(alloc, bytes) {
        Ok(Some(read)) => entry_found(alloc, names, kind, uuid, read.entry),
        Ok(None) => Ok(Finding::Damaged),
        Err(NoMemory) => Err(NoMemory),
    }
}

// What a status file is found to be.
fn status_found(alloc: Global, file: &Text, bytes: &[u8]) -> Result<Finding, NoMemory>
    ensures { IfOk result (TellsFound file.now bytes.now) }
{
    match read_status(alloc, file.as_bytes(), bytes) {
        Ok(Some(status)) => {
            let Status { name, boot, .. } = status;
            Ok(Finding::Ran { name, boot })
        }
        Ok(None) => Ok(Finding::Unread),
        Err(NoMemory) => Err(NoMemory),
    }
}

fn add(reports: &mut ReportList, file: &Text, found: Finding) -> Result<(), Fault>
    ensures ok { OnOk result (reports.new ≡ reports.old ++ record { file = file.now; found = found } ∷ []) }
    ensures memory { IsErrOf result fault.Failed → ⊥ }
{
    let file = match file.copy() {
        Ok(file) => file,
        Err(NoMemory) => {
            drop(found);
            return Err(Fault::NoMemory);
        }
    };
    match reports.push(Report { file, found }) {
        Ok(()) => Ok(()),
        Err(NoMemory) => Err(Fault::NoMemory),
    }
}

// The next file is reported where its name says that it is a definition.
fn examine_definition<F: Files>(
    alloc: Global,
    files: &mut F,
    names: &mut Keyed<()>,
    reports: &mut ReportList,
    file: &Text,
) -> Result<(), Fault>
    ensures ok { OnOk result (AddsDefinition (F.told files.old) file.now names.old names.new reports.old reports.new) }
    ensures told { F.told files.new ≡ F.told files.old }
    ensures cause { IsErrOf result fault.Failed → Rose (F.faults files.old) (F.faults files.new) }
    ensures faults { F.faults files.old ≤ F.faults files.new }
{
    if !is_definition_name(file.as_bytes()) {
        return Ok(());
    }
    match files.read(file) {
        Ok(Some(bytes)) => match definition_found(alloc, names, file, bytes.as_slice()) {
            Ok(found) => add(reports, file, found),
            Err(NoMemory) => Err(Fault::NoMemory),
        },
        Ok(None) => Ok(()),
        Err(Fault::Failed) => Err(Fault::Failed),
        Err(Fault::NoMemory) => Err(Fault::NoMemory),
    }
}

// The next file is reported where it is a status file.
fn examine_status<F: Files>(
    alloc: Global,
    files: &mut F,
    reports: &mut ReportList,
    file: &Text,
) -> Result<(), Fault>
    ensures ok { OnOk result (AddsStatus (F.told files.old) file.now reports.old reports.new) }
    ensures told { F.told files.new ≡ F.told files.old }
    ensures cause { IsErrOf result fault.Failed → Rose (F.faults files.old) (F.faults files.new) }
    ensures faults { F.faults files.old ≤ F.faults files.new }
{
    if !is_status_name(file.as_bytes()) {
        return Ok(());
    }
    match files.read(file) {
        Ok(Some(bytes)) => match status_found(alloc, file, bytes.as_slice()) {
            Ok(found) => add(reports, file, found),
            Err(NoMemory) => Err(Fault::NoMemory),
        },
        Ok(None) => Ok(()),
        Err(Fault::Failed) => Err(Fault::Failed),
        Err(Fault::NoMemory) => Err(Fault::NoMemory),
    }
}

// Reports the definitions' files among all files.
fn examine_definitions<F: Files>(
    alloc: Global,
    files: &mut F,
    reports: &mut ReportList,
    all: &[Text],
) -> Result<(), Fault>
    requires reports { reports.old ≡ [] }
    requires listed { IsListed (F.told files.old) all.now }
    requires ordered { IsInOrder all.now }
    ensures ok { OnOk result (HasDefinitionsAt (F.told files.old) reports.new) }
    ensures told { F.told files.new ≡ F.told files.old }
    ensures cause { IsErrOf result fault.Failed → Rose (F.faults files.old) (F.faults files.new) }
    ensures faults { F.faults files.old ≤ F.faults files.new }
{
    let mut names = Keyed::new(alloc);
    for file in all {
        match examine_definition(alloc, files, &mut names, reports, file) {
            Ok(()) => {}
            Err(Fault::Failed) => return Err(Fault::Failed),
            Err(Fault::NoMemory) => return Err(Fault::NoMemory),
        }
    }
    Ok(())
}

// Reports the status files among all files.
fn examine_statuses<F: Files>(
    alloc: Global,
    files: &mut F,
    reports: &mut ReportList,
    all: &[Text],
) -> Result<(), Fault>
    requires listed { IsListed (F.told files.old) all.now }
    requires ordered { IsInOrder all.now }
    ensures ok { OnOk result (HasStatusesAt (F.told files.old) reports.old reports.new) }
    ensures told { F.told files.new ≡ F.told files.old }
    ensures cause { IsErrOf result fault.Failed → Rose (F.faults files.old) (F.faults files.new) }
    ensures faults { F.faults files.old ≤ F.faults files.new }
{
    for file in all {
        match examine_status(alloc, files, reports, file) {
            Ok(()) => {}
            Err(Fault::Failed) => return Err(Fault::Failed),
            Err(Fault::NoMemory) => return Err(Fault::NoMemory),
        }
    }
    Ok(())
}

/// What each file of a store is, with nothing changed: first those whose names end in `.def`, by
/// rising names, and then the status files, by rising names. Other files are not looked at.
pub fn examine<F: Files>(alloc: Global, files: &mut F) -> Result<ReportList, Fault>
    ensures ok { IfOk result (IsExaminedAt (F.told files.old)) }
    ensures told { F.told files.new ≡ F.told files.old }
    ensures cause { IsErrOf result fault.Failed → Rose (F.faults files.old) (F.faults files.new) }
    ensures faults { F.faults files.old ≤ F.faults files.new }
{
    let names = match listed(alloc, files) {
        Ok(names) => names,
        Err(Fault::Failed) => return Err(Fault::Failed),
        Err(Fault::NoMemory) => return Err(Fault::NoMemory),
    };
    let all = names.as_slice();
    let mut reports = ListOf::new(alloc);
    match examine_definitions(alloc, files, &mut reports, all) {
        Ok(()) => {}
        Err(Fault::Failed) => return Err(Fault::Failed),
        Err(Fault::NoMemory) => return Err(Fault::NoMemory),
    }
    match examine_statuses(alloc, files, &mut reports, all) {
        Ok(()) => Ok(reports),
        Err(Fault::Failed) => Err(Fault::Failed),
        Err(Fault::NoMemory) => Err(Fault::NoMemory),
    }
}
