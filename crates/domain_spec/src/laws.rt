// Laws of the definitions: each function's contract is one, and its body does nothing.
ghost use Rattle.domain_spec.specs.CallLaws.{DestroyCarriesItsBoot, DestroyEnds, EndedOnlyWhereNotLive};
ghost use Rattle.domain_spec.specs.ChapterLaws.{BaseKeeps, PendingIsOwed, RegistrationsAgree, RisingGoesOn};
ghost use Rattle.domain_spec.specs.HistoryLaws.{AskedStays, ClosedUnderItsNumber, OwedExactly, PhaseAskedStays};
ghost use Rattle.domain_spec.specs.Turns.{EveryRunIsLegal};
ghost use Rattle.domain_spec.specs.WholeRun.{LifeIsRun};
ghost use Rattle.domain_spec.specs.WholeMove.{MovesAreMade};
ghost use Rattle.domain_spec.specs.WholeLife.{HasWholeLife};
ghost use Rattle.domain_spec.specs.Laws.{BootsAreNew, BootsNeverFall, EachEndsOnce, OneJobAtATime, OneOperationAtATime, OperationsGoOn};

/// In a legal history each call that was let in is closed before the next one is.
pub fn one_job_at_a_time()
    ensures { OneJobAtATime }
{}

/// In a legal history each operation ends before the next one begins.
pub fn one_operation_at_a_time()
    ensures { OneOperationAtATime }
{}

/// The number of boots never falls.
pub fn boots_never_fall()
    ensures { BootsNeverFall }
{}

/// Each boot that a history makes has a number that was never given out before.
pub fn boots_are_new()
    ensures { BootsAreNew }
{}

/// In a legal history boots end in the order of their numbers, so none ends twice.
pub fn each_boot_ends_once()
    ensures { EachEndsOnce }
{}

/// A whole operation stops only where it is over or its due phase waits for one more answer.
pub fn operations_go_on()
    ensures { OperationsGoOn }
{}

/// A Destroy that did not wait and was done leaves no guest.
pub fn destroy_ends()
    ensures { DestroyEnds }
{}

/// 201 comes only to a call whose boot is not live, and never to one on the stored definition.
pub fn ended_only_where_not_live()
    ensures { EndedOnlyWhereNotLive }
{}

/// In a legal history each call that was let in is closed under its own number.
pub fn closed_under_its_number()
    ensures { ClosedUnderItsNumber }
{}

/// While a call's boot is live no mark but its own changes what it asks.
pub fn asked_stays()
    ensures { AskedStays }
{}

/// While a phase's boot is live no mark but its own changes what it asks.
pub fn phase_asked_stays()
    ensures { PhaseAskedStays }
{}

/// What a registration is owed exactly: all transitions up to its end, cut there.
pub fn owed_exactly()
    ensures { OwedExactly }
{}

/// There is a legal history in which a guest is started, suspended and destroyed.
pub fn has_whole_life()
    ensures { HasWholeLife }
{}

/// What was there where a chapter ended is there where the next one begins.
pub fn base_keeps()
    ensures { BaseKeeps }
{}

/// The registrations of a base, after each mark and each taking, are those of its chapter.
pub fn registrations_agree()
    ensures { RegistrationsAgree }
{}

/// The number that no mark lowers goes on from chapter to chapter.
pub fn rising_goes_on()
    ensures { RisingGoesOn }
{}

/// Every list of steps ends in a legal history.
pub fn every_run_is_legal()
    ensures { EveryRunIsLegal }
{}

/// The rows of migrations hold for each domain and each caller.
pub fn moves_are_made()
    ensures { MovesAreMade }
{}

/// A Destroy carries no boot that it likes: the live one, or after waiting one that was live.
pub fn destroy_carries_its_boot()
    ensures { DestroyCarriesItsBoot }
{}

/// A guest's whole life comes of a list of steps.
pub fn life_is_run()
    ensures { LifeIsRun }
{}

/// What pends for a registration, of which nothing was taken since, is what it is owed.
pub fn pending_is_owed()
    ensures { PendingIsOwed }
{}
