// Laws of the definitions: each function's contract is one, and its body does nothing.
ghost use Rattle.core_steps.specs.TurnLaws.{AnswersAreTurns, LooksAreTurns, RefusalsAreTurns};

/// What a look finds, and what the history and those who wait are after it, is one step of the cell.
pub fn looks_are_turns()
    ensures { LooksAreTurns }
{}

/// What the history is after the answer to a call, once the held events apply, is one step of the cell; so it is
/// where a phase asks on.
pub fn answers_are_turns()
    ensures { AnswersAreTurns }
{}

/// What the history is after a call was refused that looked often enough is one step of the cell.
pub fn refusals_are_turns()
    ensures { RefusalsAreTurns }
{}
