// Laws of the definitions: each function's contract is one, and its body does nothing.
ghost use Rattle.core_steps.specs.ClientLaws.{DropsAreTurns, LeaversAreQuiet, LeavesAreTurns, RotatesAreTurns, TakersAreRegistered, TakesAreTurns, UnrotatedAreBeginnings, UnrotatedAreLooks, UnrotatedAreTakingsUp, WatchesAreTurns};

/// What became of a client that wanted to register is one step of the cell.
pub fn watches_are_turns()
    ensures { WatchesAreTurns }
{}

/// The end of a registration is one step of the cell.
pub fn leaves_are_turns()
    ensures { LeavesAreTurns }
{}

/// What a client takes is one step of the cell.
pub fn takes_are_turns()
    ensures { TakesAreTurns }
{}

/// What is let go of for a client is one step of the cell, or two.
pub fn drops_are_turns()
    ensures { DropsAreTurns }
{}

/// A chapter's end is one step of the cell.
pub fn rotates_are_turns()
    ensures { RotatesAreTurns }
{}

/// Where there was no memory for a chapter's end, its call was a look that found none.
pub fn unrotated_are_looks()
    ensures { UnrotatedAreLooks }
{}

/// The same of a call that begins an operation.
pub fn unrotated_are_beginnings()
    ensures { UnrotatedAreBeginnings }
{}

/// The same of a call that takes an operation up.
pub fn unrotated_are_takings_up()
    ensures { UnrotatedAreTakingsUp }
{}

/// A client that can take is registered by the number of the step.
pub fn takers_are_registered()
    ensures { TakersAreRegistered }
{}

/// Nothing pends for a client that can leave, and no loss is due.
pub fn leavers_are_quiet()
    ensures { LeaversAreQuiet }
{}
