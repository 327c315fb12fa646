// A change is tried in the directory.
ghost use Rattle.std.specs.Prelude.{◌≡◌, ◌≤◌, IsErrOf, IfOk};
ghost use Rattle.outside_spec.specs.Faults.{Rose};
ghost use Rattle.store_spec.specs.declared.change.Change.TheVariants as change;
ghost use Rattle.store_spec.specs.declared.version.Version.TheVariants as version;
ghost use Rattle.store_spec.specs.DefinitionFile.{definition_bytes as the_bytes};
ghost use Rattle.store_spec.specs.FileNames as name;
ghost use Rattle.virt_types.specs.Below.types_base.declared.memory.Fault.TheVariants as fault;
ghost use Rattle.def_keeper.specs.Trying.{Tries};

use crate::spelling::{definition_bytes, definition_draft, definition_name};
use files_disk::{Files, put_file, remove_file};
use std::alloc::Global;
use store_spec::{BookKind, Change, Entry};
use virt_types::{Bytes, Failed, Fault, NoMemory, Text, Uuid};

// What is written for a put, and under which names.
#[derive(Drop)]
struct Draft {
    draft: Text,
    name: Text,
    content: Bytes,
}

fn draft_of(alloc: Global, kind: BookKind, uuid: Uuid, entry: &Entry) -> Result<Draft, NoMemory>
    ensures draft { IfOk result (λ d. d.draft ≡ name.definition_draft kind uuid) }
    ensures name { IfOk result (λ d. d.name ≡ name.definition_name kind uuid) }
    ensures content { IfOk result (λ d. d.content ≡ the_bytes version.Two entry.now) }
{
    let draft = definition_draft(alloc, kind, uuid)?;
    let name = definition_name(alloc, kind, uuid)?;
    let content = definition_bytes(alloc, entry)?;
    Ok(Draft {
        draft,
        name,
        content,
    })
}

pub(crate) fn put<F: Files>(
    alloc: Global,
    files: &mut F,
    kind: BookKind,
    uuid: Uuid,
    entry: &Entry,
) -> Result<(), Fault>
    ensures tries { Tries (change.Put kind uuid entry.now) (F.told files.old) (F.told files.new) result }
    ensures cause { IsErrOf result fault.Failed → Rose (F.faults files.old) (F.faults files.new) }
    ensures faults { F.faults files.old ≤ F.faults files.new }
{
    match draft_of(alloc, kind, uuid, entry) {
        Ok(draft) => put_file(files, &draft.draft, &draft.name, draft.content.as_slice()),
        Err(NoMemory) => Err(Fault::NoMemory),
    }
}

pub(crate) fn drop_of<F: Files>(
    alloc: Global,
    files: &mut F,
    kind: BookKind,
    uuid: Uuid,
) -> Result<(), Fault>
    ensures tries { Tries (change.Drop kind uuid) (F.told files.old) (F.told files.new) result }
    ensures cause { IsErrOf result fault.Failed → Rose (F.faults files.old) (F.faults files.new) }
    ensures faults { F.faults files.old ≤ F.faults files.new }
{
    match definition_name(alloc, kind, uuid) {
        Ok(name) => match remove_file(files, &name) {
            Ok(()) => Ok(()),
            Err(Failed) => Err(Fault::Failed),
        },
        Err(NoMemory) => Err(Fault::NoMemory),
    }
}

/// Makes one change in the directory.
pub(crate) fn try_change<F: Files>(
    alloc: Global,
    files: &mut F,
    change: &Change,
) -> Result<(), Fault>
    ensures tries { Tries change.now (F.told files.old) (F.told files.new) result }
    ensures cause { IsErrOf result fault.Failed → Rose (F.faults files.old) (F.faults files.new) }
    ensures faults { F.faults files.old ≤ F.faults files.new }
{
    match change {
        Change::Put { kind, uuid, entry } => put(alloc, files, *kind, *uuid, entry),
        Change::Drop { kind, uuid } => drop_of(alloc, files, *kind, *uuid),
    }
}
