// Laws of the definitions: each function's contract is one, and its body does nothing.
ghost use Rattle.core_plan.specs.Going.{FirstIsAway, FirstIsDone, IsDoneThen, StaysAway};
ghost use Rattle.core_plan.specs.AwayLaws.{ExitKeeps, EndKeeps, IsDoneAtOnce, IsDoneEnded, IsDoneLive, OneIsPlanned};

/// A call that is away still is so after its boot has ended; it keeps the state of before.
pub fn ends_of_boots_keep()
    ensures { ExitKeeps }
{}

/// A call that is away still is so after the operation beside it has ended.
pub fn ends_of_operations_keep()
    ensures { EndKeeps }
{}

/// A call that asks nothing of anybody is done where it is let in.
pub fn is_done_at_once()
    ensures { IsDoneAtOnce }
{}

/// A call that was away, and whose boot is live, is done once nothing is left to be asked.
pub fn is_done_while_live()
    ensures { IsDoneLive }
{}

/// A call that was away, and whose boot has ended meanwhile, is done whatever it was answered.
pub fn is_done_after_its_boot()
    ensures { IsDoneEnded }
{}

/// A call that is on no device asks at most once, and nothing undoes what it asks.
pub fn is_planned_by_one()
    ensures { OneIsPlanned }
{}

/// A call that is let in is away where something is left to be asked, whichever asks found no memory.
pub fn first_is_away()
    ensures { FirstIsAway }
{}

/// It is done where nothing is.
pub fn first_is_done()
    ensures { FirstIsDone }
{}

/// A call that was away is so after one more answer where something is left to be asked, whichever
/// asks found no memory.
pub fn stays_away()
    ensures { StaysAway }
{}

/// It is done where nothing is.
pub fn is_done_then()
    ensures { IsDoneThen }
{}
