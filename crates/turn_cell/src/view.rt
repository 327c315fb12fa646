//! What a seat of the table knows. No value of these types is made.
use history_spec::{Ended, History};
use std::collections::LinkedList;

/// What a pass is doing.
pub enum Stage<T> {
    Idle,
    /// It has drawn this ticket.
    Waiting(u64),
    /// It has the turn of this ticket, and found this value.
    Holding(u64, T),
    /// It has the turn of this ticket, and has published this value.
    Published(u64, T),
}

/// What a pass knows of the history.
pub struct Knows<B, M, S> {
    /// Whether it has its number yet. Until then `number` is that of the pass it was cut off.
    pub named: bool,
    pub number: u64,
    pub parts: u64,
    /// The history as the pass last saw it.
    pub seen: History<B, M>,
    /// Two histories that were joined into `seen`.
    pub met: (History<B, M>, History<B, M>),
    /// The pass's own marks, with the numbers of their chapters.
    pub mine: LinkedList<(u64, M)>,
    /// The history as it was when the pass last left a mark of its own.
    pub held: History<B, M>,
    /// What the value keeps for its number.
    pub share: S,
    /// The passes that were joined into it.
    pub ended: LinkedList<Ended<M>>,
    /// Those that had been joined into the pass that it was cut off.
    pub older: LinkedList<Ended<M>>,
}

/// The view of a seat.
pub struct View<T, B, M, S> {
    pub stage: Stage<T>,
    /// The ticket of the cell's first turn.
    pub first: u64,
    /// How many turns it had.
    pub turns: u64,
    pub spent: bool,
    pub knows: Knows<B, M, S>,
}
