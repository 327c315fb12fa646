// The definitions of a directory are read into a map.
ghost use Rattle.std.specs.Prelude.{◌≡◌, ◌≤◌, ◌++◌, [], ◌∷◌, IfErr, IsErrOf, List, OnOk, ℕ};
ghost use Rattle.outside_spec.specs.Faults.{Rose};
ghost use Rattle.store_spec.specs.declared.change.Change.TheVariants as change;
ghost use Rattle.store_spec.specs.declared.kind.BookKind.{BookKind as TheKind};
ghost use Rattle.store_spec.specs.Changes.{changed};
ghost use Rattle.files_disk.specs.Telling.{IsListed};
ghost use Rattle.def_keeper.specs.Calls.{AllGood};
ghost use Rattle.def_keeper.specs.Finding.{Finds, HasDeviceFault, HasFoundAt, IsFirstOf, IsNoneFault, IsOtherOf, IsTwice, IsWrong, IsWrongAt, Takes};
ghost use Rattle.def_map.specs.Map.{IsFree, found, no_rows};
ghost use Rattle.def_keeper.specs.Opening.{IsInOrder};

use crate::outcome::{FoundDefinition, OpenFault};
use def_map::DefMap;
use files_disk::Files;
use std::alloc::Global;
use store_reading::{is_definition_name, read_definition, read_definition_name};
use store_spec::{BookKind, Entry, Version};
use virt_types::{Fault, ListOf, NoMemory, OrNoMemory, Text, TryCopy, Uuid};

// Puts a definition whose name no other has into the map.
fn keep(map: &mut DefMap, kind: BookKind, uuid: Uuid, entry: Entry) -> Result<(), NoMemory>
    requires { IsFree kind uuid entry.name (found map.old) }
    ensures { OnOk result ((k : TheKind) (u : List ℕ) → found map.new k u ≡ changed (change.Put kind uuid entry) (found map.old) k u) }
{
    let row = match map.prepare(kind, uuid, &entry.name) {
        Ok(row) => row,
        Err(NoMemory) => {
            drop(entry);
            return Err(NoMemory);
        }
    };
    map.set(kind, uuid, row, entry);
    Ok(())
}

// Who else of the kind has the name, if anybody.
fn other_of(map: &DefMap, kind: BookKind, uuid: Uuid, entry: &Entry) -> Option<Uuid>
    ensures { IsOtherOf kind uuid entry.now.name (found map.now) result }
{
    match map.uuid_of(kind, &entry.name) {
        Some(other) => {
            if other == uuid {
                return None;
            }
            Some(other)
        }
        None => None,
    }
}

// A file that holds an entry of this object is taken in.
fn take_entry(
    map: &mut DefMap,
    rows: &mut ListOf<FoundDefinition>,
    kind: BookKind,
    uuid: Uuid,
    version: Version,
    entry: Entry,
) -> Result<(), OrNoMemory<OpenFault>>
    ensures ok { OnOk result ((k : TheKind) (u : List ℕ) → found map.new k u ≡ changed (change.Put kind uuid entry) (found map.old) k u) }
    ensures rows { OnOk result (rows.new ≡ rows.old ++ record { kind = kind; uuid = uuid; version = version } ∷ []) }
    ensures err { IfErr result (IsTwice kind uuid entry.name (found map.old)) }
{
    if let Some(one) = other_of(map, kind, uuid, &entry) {
        drop(entry);
        return Err(OrNoMemory::Fault(OpenFault::TwoOfOneName {
            kind,
            one,
            two: uuid,
        }));
    }
    match keep(map, kind, uuid, entry) {
        Ok(()) => {}
        Err(NoMemory) => return Err(OrNoMemory::NoMemory),
    }
    match rows.push(FoundDefinition {
        kind,
        uuid,
        version,
    }) {
        Ok(()) => Ok(()),
        Err(NoMemory) => Err(OrNoMemory::NoMemory),
    }
}

// The fault of a file that is no definition.
fn no_definition(name: &Text) -> OrNoMemory<OpenFault>
    ensures { IsNoneFault name.now result }
{
    match name.copy() {
        Ok(file) => OrNoMemory::Fault(OpenFault::NotADefinition { file }),
        Err(NoMemory) => OrNoMemory::NoMemory,
    }
}

// A file is taken in by its name and its bytes.
fn take_file(
    alloc: Global,
    map: &mut DefMap,
    rows: &mut ListOf<FoundDefinition>,
    name: &Text,
    bytes: &[u8],
) -> Result<(), OrNoMemory<OpenFault>>
    ensures ok { OnOk result (Takes name.now bytes.now (found map.old) (found map.new) rows.old rows.new) }
    ensures err { IfErr result (IsWrong name.now bytes.now (found map.old)) }
    ensures good { OnOk result (AllGood (found map.old) → AllGood (found map.new)) }
{
    let (kind, uuid) = match read_definition_name(name.as_bytes()) {
        Some(key) => key,
        None => return Err(no_definition(name)),
    };
    match read_definition(alloc, bytes) {
        Ok(Some(read)) => take_entry(map, rows, kind, uuid, read.version, read.entry),
        Ok(None) => Err(no_definition(name)),
        Err(NoMemory) => Err(OrNoMemory::NoMemory),
    }
}

// The next file is taken in where its name says that it is a definition.
fn take_named<F: Files>(
    alloc: Global,
    files: &mut F,
    map: &mut DefMap,
    rows: &mut ListOf<FoundDefinition>,
    name: &Text,
) -> Result<(), OrNoMemory<OpenFault>>
    ensures ok { OnOk result (Finds (F.told files.old) name.now (found map.old) (found map.new) rows.old rows.new) }
    ensures err { IfErr result (IsWrongAt (F.told files.old) name.now (found map.old)) }
    ensures good { OnOk result (AllGood (found map.old) → AllGood (found map.new)) }
    ensures told { F.told files.new ≡ F.told files.old }
    ensures device { HasDeviceFault (F.faults files.old) (F.faults files.new) result }
    ensures faults { F.faults files.old ≤ F.faults files.new }
{
    if !is_definition_name(name.as_bytes()) {
        return Ok(());
    }
    match files.read(name) {
        Ok(Some(bytes)) => take_file(alloc, map, rows, name, bytes.as_slice()),
        Ok(None) => Ok(()),
        Err(Fault::Failed) => Err(OrNoMemory::Fault(OpenFault::Device)),
        Err(Fault::NoMemory) => Err(OrNoMemory::NoMemory),
    }
}

/// The definitions of the files with these names are read into a map, one after another.
pub(crate) fn take_all<F: Files>(
    alloc: Global,
    files: &mut F,
    map: &mut DefMap,
    rows: &mut ListOf<FoundDefinition>,
    names: &[Text],
) -> Result<(), OrNoMemory<OpenFault>>
    requires map { map.old ≡ no_rows }
    requires rows { rows.old ≡ [] }
    requires listed { IsListed (F.told files.old) names.now }
    requires ordered { IsInOrder names.now }
    ensures ok { OnOk result (HasFoundAt (F.told files.old) names.now (found map.new) rows.new) }
    ensures err { IfErr result (IsFirstOf (F.told files.old) names.now) }
    ensures good { OnOk result (AllGood (found map.new)) }
    ensures told { F.told files.new ≡ F.told files.old }
    ensures device { HasDeviceFault (F.faults files.old) (F.faults files.new) result }
    ensures faults { F.faults files.old ≤ F.faults files.new }
{
    for name in names {
        match take_named(alloc, files, map, rows, name) {
            Ok(()) => {}
            Err(fault) => return Err(fault),
        }
    }
    Ok(())
}
