// A directory of files, as the store sees it.
ghost use Rattle.std.specs.Prelude.{◌≡◌, ◌≤◌, ℕ, List, IfOk, IsErrOf};
ghost use Rattle.std.specs.declared.option.Option.{Option};
ghost use Rattle.outside_spec.specs.Faults.{HasCause, Rose};
ghost use Rattle.store_spec.specs.declared.operation.Operation.{Operation as TheOperation};
ghost use Rattle.store_spec.specs.declared.operation.Operation.TheVariants as op;
ghost use Rattle.virt_types.specs.Below.types_base.declared.memory.Fault.TheVariants as fault;
ghost use Rattle.files_disk.specs.Telling.{Does, IsListed, IsRead, Writes};

use virt_types::{Bytes, Failed, Fault, Text, TextList};

/// A directory of files. It may fail at any call, and counts that.
///
/// A store that is honest tells the operations that took effect; what a read gives and what a crash
/// leaves is then known of these. It goes on telling them. Of a store that tells nothing only the
/// count of faults is known. After `NoMemory` a call did nothing.
pub trait Files {
    // The operations that took effect on a directory that was empty at first, in order, where the
    // store tells them.
    ghost told: { Self → Option (List TheOperation) };

    // How often it failed.
    ghost faults: { Self → ℕ };

    /// The names of all files, in any order.
    fn list(&mut self) -> Result<TextList, Fault>
        ensures names { IfOk result (λ names. IsListed (told self.old) names) }
        ensures told { told self.new ≡ told self.old }
        ensures cause { IsErrOf result fault.Failed → Rose (faults self.old) (faults self.new) }
        ensures faults { faults self.old ≤ faults self.new };

    /// The bytes of a file; none where there is no such file.
    fn read(&mut self, name: &Text) -> Result<Option<Bytes>, Fault>
        ensures content { IfOk result (λ content. IsRead (told self.old) name.now content) }
        ensures told { told self.new ≡ told self.old }
        ensures cause { IsErrOf result fault.Failed → Rose (faults self.old) (faults self.new) }
        ensures faults { faults self.old ≤ faults self.new };

    /// Makes or replaces a whole file. One that failed changed nothing, or left any bytes in it.
    fn write(&mut self, name: &Text, content: &[u8]) -> Result<(), Fault>
        ensures told { Writes name.now content.now (told self.old) (told self.new) result }
        ensures memory { IsErrOf result fault.NoMemory → told self.new ≡ told self.old }
        ensures cause { IsErrOf result fault.Failed → Rose (faults self.old) (faults self.new) }
        ensures faults { faults self.old ≤ faults self.new };

    /// Puts the bytes of a file on the disk. One that failed tells nothing.
    fn sync(&mut self, name: &Text) -> Result<(), Failed>
        ensures told { Does (op.Sync name.now) (told self.old) (told self.new) result }
        ensures cause { HasCause (faults self.old) (faults self.new) result };

    /// Gives a file another name, also that of another file, which then is gone. One that failed has
    /// taken effect or not.
    fn rename(&mut self, from: &Text, to: &Text) -> Result<(), Fault>
        ensures told { Does (op.Rename from.now to.now) (told self.old) (told self.new) result }
        ensures memory { IsErrOf result fault.NoMemory → told self.new ≡ told self.old }
        ensures cause { IsErrOf result fault.Failed → Rose (faults self.old) (faults self.new) }
        ensures faults { faults self.old ≤ faults self.new };

    /// Removes a file, if there is one. One that failed has taken effect or not.
    fn remove(&mut self, name: &Text) -> Result<(), Failed>
        ensures told { Does (op.Remove name.now) (told self.old) (told self.new) result }
        ensures cause { HasCause (faults self.old) (faults self.new) result };

    /// Puts the renames and removals so far on the disk. One that failed tells nothing.
    fn sync_dir(&mut self) -> Result<(), Failed>
        ensures told { Does op.SyncDirectory (told self.old) (told self.new) result }
        ensures cause { HasCause (faults self.old) (faults self.new) result };
}
