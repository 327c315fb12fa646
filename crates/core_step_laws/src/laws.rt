// Laws of the definitions: each function's contract is one, and its body does nothing.
ghost use Rattle.core_step_laws.specs.Calls.{CallsStay};
ghost use Rattle.core_step_laws.specs.Chapters.{TurnsGoOn};
ghost use Rattle.core_step_laws.specs.Operations.{OperationsStay};
ghost use Rattle.core_step_laws.specs.Shares.{MarksAreOwn, OthersAreKept};
ghost use Rattle.core_step_laws.specs.Telling.{SharesTell};

/// Each mark of a turn bears the number of its step, or belongs to nobody.
pub fn marks_are_own()
    ensures { MarksAreOwn }
{}

/// What a domain keeps for any number but that of the step stays through the turn.
pub fn others_are_kept()
    ensures { OthersAreKept }
{}

/// A turn adds its marks to the chapter, or begins the next one with what is there.
pub fn turns_go_on()
    ensures { TurnsGoOn }
{}

/// A number's share shows which steps it can take.
pub fn shares_tell()
    ensures { SharesTell }
{}

/// While a call is open, the operation beside it stays as it is, or ends.
pub fn operations_stay()
    ensures { OperationsStay }
{}

/// A call that is open stays so in each turn but its own.
pub fn calls_stay()
    ensures { CallsStay }
{}
