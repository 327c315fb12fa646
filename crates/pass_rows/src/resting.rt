// Passes between two calls.
ghost use Rattle.std.specs.Prelude.{◌≡◌, IsTrue, ◌↔◌};
ghost use Rattle.pass_rows.specs.Resting.{IsIdle, IsSo, both_states, of_part};

use std::marker::Model;
use turn_cell::{Kept, Pass};

/// What is known at run time of a pass between two calls.
#[derive(Clone, Copy, Debug, PartialEq, Eq)]
pub enum PassState {
    /// It has tickets left, and its cell keeps nothing for it.
    Idle,
    /// It has tickets left, and its cell keeps something for it.
    Busy,
    /// No ticket is left for it.
    Spent,
}

impl PassState {
    /// What is known of a part that is cut off.
    pub(crate) fn of_part(self) -> PassState
        ensures { result ≡ of_part self }
    {
        match self {
            PassState::Idle => PassState::Idle,
            PassState::Busy => PassState::Idle,
            PassState::Spent => PassState::Spent,
        }
    }

    /// What is known of a pass into which another was put.
    pub(crate) fn with(self, other: PassState) -> PassState
        ensures { result ≡ both_states self other }
    {
        match (self, other) {
            (PassState::Spent, _) => PassState::Spent,
            (_, PassState::Spent) => PassState::Spent,
            (state, _) => state,
        }
    }
}

/// A pass between two calls, with what is known of it at run time. Contracts see the pass.
#[derive(Drop)]
pub struct RestingPass<T: Kept> {
    pass: Pass<T>,
    state: PassState,
}

impl<T: Kept> Model for RestingPass<T> {
    ghost use Rattle.turn_cell.specs.Passes.{Passed};
    ghost use Rattle.pass_rows.specs.Resting.{IsSo};

    ghost Value = { Passed T.Base T.Mark T.Share };

    ghost view = { λ r. r.pass };

    ghost invariant = { λ r. IsSo T.meaning r.state r.pass };
}

impl<T: Kept> RestingPass<T> {
    /// A pass, of which this is known.
    pub fn new(pass: Pass<T>, state: PassState) -> RestingPass<T>
        requires { IsSo T.meaning state pass }
        ensures { result ≡ pass }
    {
        RestingPass { pass, state }
    }

    /// The pass.
    pub fn into_pass(self) -> Pass<T>
        ensures { result ≡ self }
    {
        let RestingPass { pass, state: _ } = self;
        pass
    }

    /// What is known of it.
    pub fn state(&self) -> PassState
        ensures { IsSo T.meaning result self.now }
    {
        self.state
    }

    /// Whether it has tickets left, and its cell keeps nothing for it.
    pub fn is_idle(&self) -> bool
        ensures { IsTrue result ↔ IsIdle T.meaning self.now }
    {
        match self.state {
            PassState::Idle => true,
            PassState::Busy => false,
            PassState::Spent => false,
        }
    }
}
