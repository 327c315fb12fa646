// Keepers over files in memory.
use def_keeper::Keeper;
use files_disk::MemFiles;
use std::marker::Brand;

/// A keeper over files in memory.
pub(crate) type TestKeeper = Keeper<MemFiles, Brand>;
