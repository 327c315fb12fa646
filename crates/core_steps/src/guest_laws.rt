// Laws of the definitions: each function's contract is one, and its body does nothing.
ghost use Rattle.core_steps.specs.GuestLaws.{EarsHaveRoom, EventsAreTurns, ExitsAreTurns};

/// A boot's end, with what is told of it, is one step of the cell.
pub fn exits_are_turns()
    ensures { ExitsAreTurns }
{}

/// A guest's event, be it marked, held or dropped, is one step of the cell.
pub fn events_are_turns()
    ensures { EventsAreTurns }
{}

/// Ears that have told nothing yet have room for what they tell.
pub fn ears_have_room()
    ensures { EarsHaveRoom }
{}
