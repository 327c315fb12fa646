use crate::open::OpenOperation;
use crate::step::Outcome;
use virt_types::{AnswerList, AskList, ListOf, Phase, State, Transition};

/// A phase of an operation that was done.
#[derive(Drop)]
pub struct DonePhase {
    /// Which one.
    pub phase: Phase,
    /// What it asked, in order.
    pub asks: AskList,
    /// What each ask was answered.
    pub answers: AnswerList,
    /// What it led to.
    pub outcome: Outcome,
    /// What listeners were told, in order; where its boot ended, of that end too.
    pub transitions: ListOf<Transition>,
}

/// How far an operation has come. Its fields are read and replaced in place; none is moved out of it.
pub struct Progress {
    /// The phases that were done, in order.
    pub phases: ListOf<DonePhase>,
    /// The state that they left, in which the operation's end is not marked yet.
    pub state: State,
    /// The operation, with what its last phase led to.
    pub operation: OpenOperation,
    /// The answers that no phase has taken, in order.
    pub left: AnswerList,
}

// Written out, and not derived: so a proof meets one call where it is let go.
impl Drop for Progress {
    fn drop(self) {
        let Progress {
            phases: _,
            state: _,
            operation: _,
            left: _,
        } = self;
    }
}
