// What is done to the files of a directory.
use virt_types::{Bytes, NoMemory, Text, TryCopy, both};

/// One operation on the files of a directory.
#[derive(Drop)]
pub enum Operation {
    /// A whole file is made or replaced.
    Write {
        /// Its name.
        name: Text,
        /// Its bytes.
        content: Bytes,
    },
    /// The bytes of a file are put on the disk.
    Sync {
        /// Its name.
        name: Text,
    },
    /// A file gets another name, also that of another file, which then is gone.
    Rename {
        /// The name that it had.
        from: Text,
        /// The name that it gets.
        to: Text,
    },
    /// A file is removed, if there is one.
    Remove {
        /// Its name.
        name: Text,
    },
    /// The renames and removals so far are put on the disk.
    SyncDirectory,
}

impl TryCopy for Operation {
    fn copy(&self) -> Result<Operation, NoMemory> {
        Ok(match self {
            Operation::Write { name, content } => {
                let (name, content) = both(name.copy(), content.copy())?;
                Operation::Write { name, content }
            }
            Operation::Sync { name } => Operation::Sync { name: name.copy()? },
            Operation::Rename { from, to } => {
                let (from, to) = both(from.copy(), to.copy())?;
                Operation::Rename { from, to }
            }
            Operation::Remove { name } => Operation::Remove { name: name.copy()? },
            Operation::SyncDirectory => Operation::SyncDirectory,
        })
    }
}
