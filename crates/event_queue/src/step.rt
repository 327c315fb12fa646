use types_base::Transition;

/// What happens to a registration's ring.
#[derive(Clone, Copy, Debug, PartialEq, Eq)]
pub enum WatchStep {
    /// A transition comes.
    Push(Transition),
    /// The oldest that pends is taken.
    Take,
}
