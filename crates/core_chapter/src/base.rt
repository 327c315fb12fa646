// What a chapter begins with.
use crate::open::Underway;
use history_spec::Stamp;
use std::marker::Model;
use virt_types::{ListOf, State, Transition};

/// A registration as a chapter's base has it. Contracts see it with the number of its pass.
#[derive(Drop)]
pub struct KeptRegistration {
    /// The number of its pass.
    pub by: Stamp,
    /// Which registration it is.
    pub client: u32,
    /// How many transitions were taken.
    pub taken: u64,
    /// What pends.
    pub pending: ListOf<Transition>,
    /// Whether it was cut, so that after what pends its loss is due.
    pub is_lost: bool,
}

impl Model for KeptRegistration {
    ghost use Rattle.domain_spec.specs.declared.standing.Registration.{Registration};

    ghost Value = { Registration };

    ghost view = { λ r. record { number = r.by.number; client = r.client; taken = r.taken; pending = r.pending; is_lost = r.is_lost } };
}

/// What a chapter begins with.
#[derive(Drop)]
pub struct ChapterBase {
    /// The state.
    pub state: State,
    /// The operation that is under way.
    pub operation: Option<Underway>,
    /// Who is registered.
    pub registrations: ListOf<KeptRegistration>,
}

impl Model for ChapterBase {
    ghost use Rattle.domain_spec.specs.declared.standing.Base.{Base};

    ghost Value = { Base };

    ghost view = { λ b. record { state = b.state; operation = b.operation; registrations = b.registrations } };
}
