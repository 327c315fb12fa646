// A law of the definitions: the function's contract is the law, and its body does nothing.
ghost use Rattle.event_queue.specs.Whole.{OwesTakenAndPending};

/// Whatever comes and is taken, in any order: what was taken and what pends is what the registration
/// is owed, and then its loss, where more came than it keeps.
pub fn taken_and_pending_are_owed()
    ensures { OwesTakenAndPending }
{}
