use virt_types::{ListOf, NoMemory, Phase, Reply, State, Transition, TryCopy};

/// What a call leaves where it is done.
#[derive(Drop)]
pub struct CallStep {
    /// The state.
    pub state: State,
    /// What the caller is told.
    pub reply: Reply,
    /// What listeners are told, in order.
    pub transitions: ListOf<Transition>,
}

/// What a phase of an operation leads to.
#[derive(Drop)]
pub enum Outcome {
    /// This phase is next.
    On(Phase),
    /// The operation is over, with this reply.
    Over(Reply),
    /// The operation rests until a call takes it up; the call that came so far has this reply.
    Rest(Reply),
}

impl TryCopy for Outcome {
    fn copy(&self) -> Result<Outcome, NoMemory> {
        Ok(match self {
            Outcome::On(phase) => Outcome::On(*phase),
            Outcome::Over(reply) => Outcome::Over(reply.copy()?),
            Outcome::Rest(reply) => Outcome::Rest(reply.copy()?),
        })
    }
}

/// What a phase of an operation leaves.
#[derive(Drop)]
pub struct PhaseStep {
    /// The state.
    pub state: State,
    /// What listeners are told, in order.
    pub transitions: ListOf<Transition>,
    /// What the phase leads to.
    pub outcome: Outcome,
}
