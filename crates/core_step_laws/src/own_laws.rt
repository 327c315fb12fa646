// Laws of the definitions: each function's contract is one, and its body does nothing.
ghost use Rattle.core_step_laws.specs.Answered.{AnswersKeep};
ghost use Rattle.core_step_laws.specs.Heard.{HearingsKeep};
ghost use Rattle.core_step_laws.specs.Leaving.{ChaptersKeep, LeaversKeep, RefusalsKeep};
ghost use Rattle.core_step_laws.specs.Looked.{LooksKeep};
ghost use Rattle.core_step_laws.specs.OwnOperations.{BeginningsKeep, EndsKeep, PhasesKeep, TakingsUpKeep};
ghost use Rattle.core_step_laws.specs.Queued.{BeginningsQueue, LooksQueue, OperationQueuesTell, QueuesTell, TakingsUpQueue};
ghost use Rattle.core_step_laws.specs.Registered.{TakesKeep, UnwatchesKeep, WatchesKeep};

/// A look leaves no call open, unless it asks; who waits is then as it was found; all else stays.
pub fn looks_keep()
    ensures { LooksKeep }
{}

/// The turn of an answer leaves no call open, unless it asks on; the operation is what its phase led to; all else
/// stays.
pub fn answers_keep()
    ensures { AnswersKeep }
{}

/// Nobody waits any more by the number of a call that gives up; all else stays.
pub fn refusals_keep()
    ensures { RefusalsKeep }
{}

/// So it is where a number leaves the queue, and nothing else changes.
pub fn leavers_keep()
    ensures { LeaversKeep }
{}

/// The end of a chapter leaves no call open; all else stays, but that nobody may wait any more.
pub fn chapters_keep()
    ensures { ChaptersKeep }
{}

/// A call that looks whether its operation may begin leaves no call open; where it begins, a phase of it is due.
pub fn beginnings_keep()
    ensures { BeginningsKeep }
{}

/// So does a call that looks whether it may take an operation up.
pub fn takings_up_keep()
    ensures { TakingsUpKeep }
{}

/// A due phase that is let in leaves what an answer leaves by which it asks on, or is done; else all stays.
pub fn phases_keep()
    ensures { PhasesKeep }
{}

/// The end of an operation leaves none open, nor a call where none was.
pub fn ends_keep()
    ensures { EndsKeep }
{}

/// After a boot's end or a guest's event all stays, but that what its ears heard was told.
pub fn hearings_keep()
    ensures { HearingsKeep }
{}

/// A client that registers has taken nothing yet; all else stays.
pub fn watches_keep()
    ensures { WatchesKeep }
{}

/// A client that leaves has no registration any more; all else stays.
pub fn unwatches_keep()
    ensures { UnwatchesKeep }
{}

/// A client that takes has taken all that pended; all else stays.
pub fn takes_keep()
    ensures { TakesKeep }
{}

/// After a look its caller waits where it was excluded, and else not.
pub fn looks_queue()
    ensures { LooksQueue }
{}

/// So says the share of its number.
pub fn queues_tell()
    ensures { QueuesTell }
{}

/// A call that begins an operation waits where it was excluded, and else not.
pub fn beginnings_queue()
    ensures { BeginningsQueue }
{}

/// So does one that takes an operation up.
pub fn takings_up_queue()
    ensures { TakingsUpQueue }
{}

/// So says the share of its number.
pub fn operation_queues_tell()
    ensures { OperationQueuesTell }
{}
