// What was found where the daemon was opened.
use virt_types::{ListOf, PoolDef};

/// A pool that was found where the daemon was opened.
#[derive(Drop)]
pub struct FoundPool {
    /// Its definition.
    pub def: PoolDef,
    /// Whether it is started where the daemon starts.
    pub autostart: bool,
}

/// Pools that were found.
pub type FoundPoolList = ListOf<FoundPool>;
