//! The rows in which networks are listed.
use virt_types::{ListOf, Name, Uuid};

/// A network, and whether it is active.
#[derive(Drop)]
pub struct NetRow {
    /// Its name.
    pub name: Name,
    /// Its identifier.
    pub uuid: Uuid,
    /// Whether it is started.
    pub active: bool,
}

/// Networks in order.
pub type NetRowList = ListOf<NetRow>;
