//! The shapes that views and contracts speak of.
use std::collections::LinkedList;

/// What happened to one shared value: the number of the present chapter, what the chapter began
/// with, and its marks, the oldest first. No value of it is made.
pub struct History<B, M> {
    pub chapter: u64,
    pub base: B,
    pub marks: LinkedList<M>,
}

/// The number of a pass that was joined into another, how many turns it had, and its own marks, each
/// with the number of its chapter. No value of it is made.
pub struct Ended<M> {
    pub number: u64,
    pub turns: u64,
    pub mine: LinkedList<(u64, M)>,
}
