// Laws of the definitions: each function's contract is one, and its body does nothing.
ghost use Rattle.core_step_laws.specs.Made.{MadeByItsMake, MadeStaysMade, MarksAgree, OpenedAgrees, PhasesAgree};

/// Where the store was opened no guest has still to be made.
pub fn opened_agrees()
    ensures { OpenedAgrees }
{}

/// After each lawful mark the domain has still to make the guest that its history has still to make.
pub fn marks_agree()
    ensures { MarksAgree }
{}

/// And after each turn.
pub fn phases_agree()
    ensures { PhasesAgree }
{}

/// A guest is there only once the ask to make it was answered Ok, from the turn of that answer on.
pub fn made_by_its_make()
    ensures { MadeByItsMake }
{}

/// While a call is open no boot that is made has to be made again.
pub fn made_stays_made()
    ensures { MadeStaysMade }
{}
