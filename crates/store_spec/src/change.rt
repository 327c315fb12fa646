// Changes of definitions.
use crate::entry::Entry;
use crate::kind::BookKind;
use uuid::Uuid;
use virt_types::{NoMemory, TryCopy};

/// A change of the definitions that the store keeps.
#[derive(Drop)]
pub enum Change {
    /// Keep this entry, in the place of another if there is one.
    Put {
        /// The kind of object.
        kind: BookKind,
        /// The object's identifier.
        uuid: Uuid,
        /// Its entry.
        entry: Entry,
    },
    /// Keep no entry.
    Drop {
        /// The kind of object.
        kind: BookKind,
        /// The object's identifier.
        uuid: Uuid,
    },
}

impl TryCopy for Change {
    fn copy(&self) -> Result<Change, NoMemory> {
        Ok(match self {
            Change::Put { kind, uuid, entry } => Change::Put {
                kind: *kind,
                uuid: *uuid,
                entry: entry.copy()?,
            },
            Change::Drop { kind, uuid } => Change::Drop {
                kind: *kind,
                uuid: *uuid,
            },
        })
    }
}
