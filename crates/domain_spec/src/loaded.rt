use virt_types::{Bytes, DomainDef};

/// A guest's state that is loaded: an image's or a snapshot's.
#[derive(Drop)]
pub struct Loaded {
    /// The definition that the guest had.
    pub definition: DomainDef,
    /// Whether it ran.
    pub ran: bool,
    /// The state.
    pub saved: Bytes,
}
