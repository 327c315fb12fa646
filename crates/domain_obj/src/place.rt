// What a pass has seen of its domain.
use virt_types::Front;

/// What a pass that comes back has seen of its domain.
#[derive(Clone, Copy, Debug, PartialEq, Eq)]
pub struct Seen {
    /// How far the history goes that it has seen.
    pub front: Front,
    /// Whether there was a domain, or an operation rested.
    pub occupied: bool,
}
