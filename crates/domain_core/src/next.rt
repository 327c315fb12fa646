// What a phase led its operation to.
ghost use Rattle.std.specs.Prelude.{◌≡◌};
ghost use Rattle.domain_core.specs.Leading.{Leads, step_of};
ghost use Rattle.domain_spec.specs.Cell.{standing_of};

use crate::turns::DomainTurns;
use core_steps::Step;
use std::alloc::Global;
use virt_types::Reply;

/// What a phase led its operation to.
#[derive(Drop)]
pub enum Next {
    /// Another phase is due.
    On,
    /// The operation is over, and can end.
    Over,
    /// The operation rests until a call takes it up. The call that came so far is told this, or, where there is no memory
    /// for one more copy of it, that.
    Rest(Reply),
}

impl DomainTurns {
    /// What a phase led to that was done in the turn before; where the operation rests, with what its call is told.
    pub(crate) fn next(&self, alloc: Global, step: Step) -> Next
        ensures step { step_of result ≡ step }
        ensures leads { Leads (standing_of self.now.turning.cell).operation (step_of result) result }
    {
        match step {
            Step::On => Next::On,
            Step::Over => Next::Over,
            Step::Rest => Next::Rest(self.rest_reply(alloc)),
        }
    }
}
