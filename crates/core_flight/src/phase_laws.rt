// Laws of the definitions: each function's contract is one, and its body does nothing.
ghost use Rattle.core_flight.specs.Operated.{AwayPhaseWaits, BegunIsLeft, EndIsLeft, LostPhaseIsSilent, PhaseIsLeft, PhaseLetInIsLeft, RefusedIsLeft, TakenUpIsLeft};

/// A turn may leave the Admit of a call that begins an operation, and then its Start.
pub fn begun_calls_are_left()
    ensures { BegunIsLeft }
{}

/// A turn may leave the Admit of a call that takes up an operation, and then its TakeUp.
pub fn taken_up_calls_are_left()
    ensures { TakenUpIsLeft }
{}

/// A turn may leave the Admit of a call that begins an operation, or takes one up, and then the marks by
/// which it is refused.
pub fn refused_calls_are_left()
    ensures { RefusedIsLeft }
{}

/// The marks by which a phase is done may be left by a turn that has its answers.
pub fn done_phases_are_left()
    ensures { PhaseIsLeft }
{}

/// A turn may leave the Admit of the due phase, and then the marks by which it is done.
pub fn let_in_phases_are_left()
    ensures { PhaseLetInIsLeft }
{}

/// A phase that is away waits for an answer to its last ask.
pub fn away_phases_wait()
    ensures { AwayPhaseWaits }
{}

/// A turn may leave the end of an operation.
pub fn operations_end()
    ensures { EndIsLeft }
{}

/// A phase whose monitor was lost, so that the end of its boot follows, tells nothing.
pub fn lost_phases_are_silent()
    ensures { LostPhaseIsSilent }
{}
