// Laws of the definitions: each function's contract is one, and its body does nothing.
ghost use Rattle.core_flight.specs.Turned.{AwayWaits, DoneIsLeft, LetInIsLeft, StarvedFindNone};

/// The marks by which a call is done may be left by a turn that has its answers.
pub fn done_calls_are_left()
    ensures { DoneIsLeft }
{}

/// A look may leave the Admit of its call and then the marks by which it is done.
pub fn let_in_calls_are_left()
    ensures { LetInIsLeft }
{}

/// A call that is away waits for an answer to its last ask.
pub fn away_calls_wait()
    ensures { AwayWaits }
{}

/// What is answered of asks that found no memory.
pub fn starved_asks_find_no_memory()
    ensures { StarvedFindNone }
{}
