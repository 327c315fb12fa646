// What is found when a store is opened, and why one is not opened.
use store_spec::{BookKind, Version};
use thiserror::Error;
use virt_types::{ListOf, Status, Text, Uuid};

/// A definition that was found, and the version of its file.
#[derive(Clone, Copy, Debug, PartialEq, Eq)]
pub struct FoundDefinition {
    /// The kind of object.
    pub kind: BookKind,
    /// The object's identifier.
    pub uuid: Uuid,
    /// The version of its file.
    pub version: Version,
}

/// What a store held when it was opened, beside its map.
#[derive(Drop)]
pub struct Found {
    /// The version of each definition's file, in the order of the files' names.
    pub definitions: ListOf<FoundDefinition>,
    /// What each status file reports, in the order of their names; none where one reports nothing.
    pub statuses: ListOf<Option<Status>>,
}

/// Why a store is not opened: the first fault in the order of its files' names.
#[derive(Debug, Drop, Error)]
pub enum OpenFault {
    /// The store failed.
    #[error("the store failed")]
    Device,
    /// A file whose name ends in `.def` is no definition.
    #[error("a file is no definition")]
    NotADefinition {
        /// The file's name.
        file: Text,
    },
    /// Two objects of a kind have one name.
    #[error("two definitions have one name")]
    TwoOfOneName {
        /// The kind of object.
        kind: BookKind,
        /// The object whose file was read first.
        one: Uuid,
        /// The other.
        two: Uuid,
    },
}
