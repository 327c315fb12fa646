//! The list of domains: what is in it, and what its calls are and answer.
use std::collections::LinkedList;
use virt_types::{Bytes, Front, Name, Uuid};

/// What a slot holds. No value of it is made.
pub struct Entry {
    /// The domain's name.
    pub name: Name,
    /// The domain's identifier.
    pub uuid: Uuid,
    /// The numbers of the passes that hold the slot, each as often as it does.
    pub holders: LinkedList<u64>,
    /// The longest front that a release told, of the history of this slot's cell.
    pub front: Front,
    /// Whether the cell was occupied there: a slot that nobody holds is kept for as long as it is.
    pub occupied: bool,
}

/// The slots, from 0. No value of it is made.
pub type Slots = LinkedList<Option<Entry>>;

/// Why the list gave no slot.
#[derive(Drop)]
pub enum ListFault {
    /// No domain has this name, or this identifier.
    Absent,
    /// Of the name and the identifier one is held with another.
    Exists {
        /// The name of the domain that holds it.
        name: Name,
        /// The identifier of that domain.
        uuid: Uuid,
    },
    /// All slots are held.
    Full {
        /// How many there are.
        count: u32,
    },
}

/// A call that leaves a mark. No value of it is made.
pub enum ListCall {
    /// A holder more for the domain of this name. What is asked for need not be a name.
    HoldName(Bytes),
    /// A holder more for the domain of this identifier.
    HoldUuid(Uuid),
    /// A holder more for the domain of this name and identifier, which gets a slot where it has none.
    Claim {
        /// The name.
        name: Name,
        /// The identifier.
        uuid: Uuid,
    },
    /// A holder fewer.
    Release {
        /// The slot.
        slot: u32,
        /// How far the releasing pass has seen the history of the slot's cell.
        front: Front,
        /// Whether the cell was occupied there.
        occupied: bool,
    },
}

/// A call with what it was answered, in the turn of the pass of this number. No value of it is made.
pub struct ListMark {
    /// The number of the pass.
    pub number: u64,
    /// The call.
    pub call: ListCall,
    /// The slot, or why there was none.
    pub answer: Result<u32, ListFault>,
}
