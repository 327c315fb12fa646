// Laws of the definitions: each function's contract is one, and its body does nothing.
ghost use Rattle.domain_core.specs.Changing.{StillTurnsChange, TurnsChange};

/// A step of a pass's number changes what that pass may change, by the marks of its own.
pub fn turns_change()
    ensures { TurnsChange }
{}

/// So does a turn that leaves the history as it is, by no mark.
pub fn still_turns_change()
    ensures { StillTurnsChange }
{}
