// How a pass comes to hear no more.
use crate::Seen;

/// Why a pass hears no more, and what it has seen by then.
#[derive(Clone, Copy, Debug, PartialEq, Eq)]
pub enum Hushed {
    /// The ears had nothing more to report.
    Quiet(Seen),
    /// There was no memory to hear.
    NoMemory(Seen),
    /// No ears were available: no guest is there, somebody else has them, or 64 events are held.
    Unheard(Seen),
    /// As much was heard as may be at once; there may be more.
    Often(Seen),
    /// No ticket was left.
    Spent,
}
