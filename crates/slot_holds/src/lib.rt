//! How the slot of a request's domain is asked for.
#![tactic(auto)]

use types_base::{Bytes, Name, Uuid};

/// By what a request asks the list of domains for a slot.
#[derive(Drop)]
pub enum Hold {
    /// The domain of this name. What is asked for need not be a name.
    Name(Bytes),
    /// The domain of this identifier.
    Uuid(Uuid),
    /// The domain of this name and identifier, which gets a slot where it has none.
    Claim {
        /// The name.
        name: Name,
        /// The identifier.
        uuid: Uuid,
    },
}
