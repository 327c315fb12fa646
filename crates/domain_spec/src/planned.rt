use virt_types::{Ask, AskList};

/// An ask that is to be made, with what undoes it where it is refused.
#[derive(Drop)]
pub struct PlannedAsk {
    /// The ask.
    pub ask: Ask,
    /// What follows where it is refused.
    pub undo: AskList,
}
