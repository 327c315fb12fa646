// Laws of the definitions: each function's contract is one, and its body does nothing.
ghost use Rattle.event_queue.specs.CutLaws.{CutsAreDue, CutsAreLawful};

/// After transitions just the cuts that are due are marked, and then each registration keeps as much as
/// it can.
pub fn cuts_are_due()
    ensures { CutsAreDue }
{}

/// The marks of these cuts are lawful right after the mark that brought the transitions.
pub fn cuts_are_lawful()
    ensures { CutsAreLawful }
{}
