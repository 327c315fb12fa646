// Laws of the definitions: each function's contract is one, and its body does nothing.
ghost use Rattle.core_mark_laws.specs.Guests.{EveryMarkKeepsGuests};
ghost use Rattle.core_mark_laws.specs.Tidy.{EveryMarkKeepsTidy, OpenedIsTidy, StoredPlansStay};

/// A cell as the store was opened is tidy.
pub fn opened_is_tidy()
    ensures { OpenedIsTidy }
{}

/// No mark makes a cell untidy.
pub fn every_mark_keeps_tidy()
    ensures { EveryMarkKeepsTidy }
{}

/// What a call on the stored definition asks stays as it was where a guest ends.
pub fn stored_plans_stay()
    ensures { StoredPlansStay }
{}

/// No mark lets another guest run beside an open operation than the operation's own.
pub fn every_mark_keeps_guests()
    ensures { EveryMarkKeepsGuests }
{}
