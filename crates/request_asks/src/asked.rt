// What a request asks.
ghost use Rattle.std.specs.Prelude.{◌≡◌};
ghost use Rattle.request_asks.specs.Said.{refused_by};

use outcome_spec::Task;
use slot_holds::Hold;
use virt_types::{Front, OrNoMemory, Refusal};

/// What is listed of several domains.
#[derive(Clone, Copy, Debug, PartialEq, Eq)]
pub enum Listing {
    /// All domains.
    All,
    /// The names of those that are not active.
    Idle {
        /// How many names are told at most.
        most: i32,
    },
    /// The titles of the definitions that the store keeps.
    Titles,
}

/// What a request asks, or why nothing comes of it.
#[derive(Drop)]
pub enum Asked {
    /// A task for one domain.
    Task {
        /// By what the slot of the domain is asked for.
        hold: Hold,
        /// What is asked of the domain there.
        task: Task,
    },
    /// Several domains are listed, and no slot is asked for.
    List(Listing),
    /// The connection is opened or closed, which is answered `Ok`.
    Connection,
    /// The request itself shows why it is refused.
    Refused(Refusal),
    /// The image that is to be restored was not read, or is not that of a save, or its text has no reading.
    NotRestored {
        /// Why.
        why: Refusal,
        /// The place of the mark of the read in the history of the store.
        front: Front,
    },
    /// There was no memory.
    NoMemory,
    /// No ticket was left for the turn in which the image would have been read.
    Spent,
}

impl Asked {
    /// What comes of a request that is refused for this.
    pub(crate) fn refused(why: OrNoMemory<Refusal>) -> Asked
        ensures { result ≡ refused_by why }
    {
        match why {
            OrNoMemory::Fault(why) => Asked::Refused(why),
            OrNoMemory::NoMemory => Asked::NoMemory,
        }
    }
}
