// What was found where the daemon was opened.
use virt_types::{ListOf, NetDef};

/// A network that was found where the daemon was opened.
#[derive(Drop)]
pub struct FoundNetwork {
    /// Its definition.
    pub def: NetDef,
    /// Whether it is started where the daemon starts.
    pub autostart: bool,
}

/// Networks that were found.
pub type FoundNetworkList = ListOf<FoundNetwork>;
