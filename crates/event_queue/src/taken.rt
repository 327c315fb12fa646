use types_base::{ListOf, Transition};

/// What a client is handed out.
#[derive(Drop)]
pub enum Taken {
    /// All that pended, the oldest first.
    Events(ListOf<Transition>),
    /// Nothing pended, and the registration was cut: so many pended then.
    Lost(u32),
}
