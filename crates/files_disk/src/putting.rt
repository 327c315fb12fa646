// Files are put and removed, so that what is done survives a crash.
ghost use Rattle.std.specs.Prelude.{◌≡◌, ◌≤◌, IsErrOf};
ghost use Rattle.outside_spec.specs.Faults.{HasCause, Rose};
ghost use Rattle.virt_types.specs.Below.types_base.declared.memory.Fault.TheVariants as fault;
ghost use Rattle.files_disk.specs.Putting.{PutsFile, RemovesFile};

use crate::files::Files;
use virt_types::{Failed, Fault, Text};

/// Writes a draft and syncs it, gives it its name, and syncs the directory.
pub fn put_file<F: Files>(
    files: &mut F,
    draft: &Text,
    name: &Text,
    content: &[u8],
) -> Result<(), Fault>
    ensures told { PutsFile draft.now name.now content.now (F.told files.old) (F.told files.new) result }
    ensures cause { IsErrOf result fault.Failed → Rose (F.faults files.old) (F.faults files.new) }
    ensures faults { F.faults files.old ≤ F.faults files.new }
{
    match files.write(draft, content) {
        Ok(()) => {}
        Err(Fault::Failed) => return Err(Fault::Failed),
        Err(Fault::NoMemory) => return Err(Fault::NoMemory),
    }
    match files.sync(draft) {
        Ok(()) => {}
        Err(Failed) => return Err(Fault::Failed),
    }
    match files.rename(draft, name) {
        Ok(()) => {}
        Err(Fault::Failed) => return Err(Fault::Failed),
        Err(Fault::NoMemory) => return Err(Fault::NoMemory),
    }
    match files.sync_dir() {
        Ok(()) => Ok(()),
        Err(Failed) => Err(Fault::Failed),
    }
}

/// Removes a file, and syncs the directory.
pub fn remove_file<F: Files>(files: &mut F, name: &Text) -> Result<(), Failed>
    ensures told { RemovesFile name.now (F.told files.old) (F.told files.new) result }
    ensures cause { HasCause (F.faults files.old) (F.faults files.new) result }
{
    match files.remove(name) {
        Ok(()) => {}
        Err(Failed) => return Err(Failed),
    }
    match files.sync_dir() {
        Ok(()) => Ok(()),
        Err(Failed) => Err(Failed),
    }
}
