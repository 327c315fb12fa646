// Laws of the definitions: each function's contract is one, and its body does nothing.
ghost use Rattle.core_owed.specs.OwingLaws.{OpenedIsOwed, PendingIsRest, TurnsKeepOwed, WatchIsOwedSince};

/// Where the store was opened nobody is registered.
pub fn opened_is_owed()
    ensures { OpenedIsOwed }
{}

/// After each turn what was taken and what pends for a registration is what its history owes it.
pub fn turns_keep_owed()
    ensures { TurnsKeepOwed }
{}

/// So what pends is what is owed but for what was taken.
pub fn pending_is_rest()
    ensures { PendingIsRest }
{}

/// What a Watch is owed in its own chapter is what is owed since its place.
pub fn watch_is_owed_since()
    ensures { WatchIsOwedSince }
{}
