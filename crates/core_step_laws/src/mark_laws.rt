// Laws of the definitions: each function's contract is one, and its body does nothing.
ghost use Rattle.core_step_laws.specs.MarkedAnswered.{AnswersLeave};
ghost use Rattle.core_step_laws.specs.MarkedLooked.{LooksLeave};
ghost use Rattle.core_step_laws.specs.MarkedOperations.{BeginningsLeave, EndsLeave, PhasesLeave, TakingsUpLeave};
ghost use Rattle.core_step_laws.specs.Own.{OthersHaveNone, OwnAreAll, RefusalsAreOwn, SomeLeaveNone};
ghost use Rattle.core_step_laws.specs.Steady.{OpenedIsSteady, OthersAskOn, TurnsKeepSteady};

/// Where each mark bears one number, all of them are its own.
pub fn own_are_all()
    ensures { OwnAreAll }
{}

/// Where each mark bears one number or belongs to nobody, no other number has one.
pub fn others_have_none()
    ensures { OthersHaveNone }
{}

/// A boot's end, an event, what a client takes and a chapter's end leave no mark of any pass.
pub fn some_leave_none()
    ensures { SomeLeaveNone }
{}

/// The refusal of a call is its own mark.
pub fn refusals_are_own()
    ensures { RefusalsAreOwn }
{}

/// What is in force where the store was opened is steady.
pub fn opened_is_steady()
    ensures { OpenedIsSteady }
{}

/// And so is what is in force after each turn.
pub fn turns_keep_steady()
    ensures { TurnsKeepSteady }
{}

/// What a call has asked and was answered stays in the turns of other numbers.
pub fn others_ask_on()
    ensures { OthersAskOn }
{}

/// A look leaves its Admit and Done, its Admit, its Refused, or nothing of its own.
pub fn looks_leave()
    ensures { LooksLeave }
{}

/// The turn of an answer leaves a Done or a Phase of its own with all that was told, or nothing.
pub fn answers_leave()
    ensures { AnswersLeave }
{}

/// A call that looks whether its operation may begin leaves Admit and Start, or what a look leaves.
pub fn beginnings_leave()
    ensures { BeginningsLeave }
{}

/// One that looks whether it may take an operation up leaves Admit and TakeUp, or what a look leaves.
pub fn takings_up_leave()
    ensures { TakingsUpLeave }
{}

/// The turn of a due phase leaves its Admit and Phase, its Admit, or nothing of its own.
pub fn phases_leave()
    ensures { PhasesLeave }
{}

/// An operation that ends leaves its End.
pub fn ends_leave()
    ensures { EndsLeave }
{}
