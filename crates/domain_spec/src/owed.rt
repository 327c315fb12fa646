use virt_types::{ListOf, Transition};

/// What a listener is owed.
#[derive(Drop)]
pub struct Owed {
    /// The transitions, in order.
    pub events: ListOf<Transition>,
    /// Whether its registration was cut, so that its loss is told after them.
    pub is_lost: bool,
}
