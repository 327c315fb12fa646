// What the files of a directory are found to be.
use store_spec::BookKind;
use virt_types::{ListOf, Name, Text, Uuid};

/// What a file is found to be.
#[derive(Drop)]
pub enum Finding {
    /// A definition.
    Ok {
        /// The kind of object.
        kind: BookKind,
        /// The object's name.
        name: Name,
        /// The object's identifier.
        uuid: Uuid,
    },
    /// The file's name ends in `.def` and it is no definition, or another object of its kind has its
    /// name in an earlier file.
    Damaged,
    /// A boot that was live when the file was written.
    Ran {
        /// The domain's name.
        name: Name,
        /// The number of the boot.
        boot: u64,
    },
    /// A status file that reports nothing.
    Unread,
}

/// A file, and what it is found to be.
#[derive(Drop)]
pub struct Report {
    /// The file's name.
    pub file: Text,
    /// What it is found to be.
    pub found: Finding,
}

/// Reports.
pub type ReportList = ListOf<Report>;
