// What callers of the list give and get.
use types_base::{ListOf, Name, Uuid};

/// A domain that was found where the daemon was opened.
#[derive(Drop)]
pub struct FoundDomain {
    /// Its name.
    pub name: Name,
    /// Its identifier.
    pub uuid: Uuid,
}

/// A domain and its slot.
#[derive(Drop)]
pub struct SlotName {
    /// The domain's name.
    pub name: Name,
    /// Its identifier.
    pub uuid: Uuid,
    /// Its slot.
    pub slot: u32,
}

/// Domains with their slots, in order.
pub type SlotNameList = ListOf<SlotName>;
