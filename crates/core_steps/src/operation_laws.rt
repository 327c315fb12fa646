// Laws of the definitions: each function's contract is one, and its body does nothing.
ghost use Rattle.core_steps.specs.TurnLaws.{PhaseAnswersAreTurns};
ghost use Rattle.core_steps.specs.OperationLaws.{BeginsAreTurns, EndsAreTurns, PhasesAreTurns, TakeUpsAreTurns};

/// What a call finds that begins an operation, and what the history and those who wait are after it, is one step of
/// the cell.
pub fn begins_are_turns()
    ensures { BeginsAreTurns }
{}

/// The same of a call that takes an operation up.
pub fn take_ups_are_turns()
    ensures { TakeUpsAreTurns }
{}

/// What comes of a due phase is one step of the cell.
pub fn phases_are_turns()
    ensures { PhasesAreTurns }
{}

/// What the history is after the answer to a phase that is done by it, once the held events apply, is one step of the
/// cell.
pub fn phase_answers_are_turns()
    ensures { PhaseAnswersAreTurns }
{}

/// The end of an operation is one step of the cell.
pub fn ends_are_turns()
    ensures { EndsAreTurns }
{}
