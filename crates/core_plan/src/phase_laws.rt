// Laws of the definitions: each function's contract is one, and its body does nothing.
ghost use Rattle.core_plan.specs.PhaseCopying.{PlansFollowAnswers};
ghost use Rattle.core_plan.specs.PhaseGoing.{FirstPhaseIsAway, FirstPhaseIsDone, IsPhasedThen, PhaseStaysAway};
ghost use Rattle.core_plan.specs.PhaseLaws.{IsPhasedAtOnce, IsPhasedEnded, IsPhasedLive, IsPhasedStarved, PhaseBegins, PhaseExitKeeps, PhaseGoesOn, PhasePlanStays};

/// What a phase plans changes with an answer only by the copy that the first one may bring.
pub fn plans_follow_answers()
    ensures { PlansFollowAnswers }
{}

/// A phase that was let in and asks something is away.
pub fn phases_begin()
    ensures { PhaseBegins }
{}

/// It still is after an answer that another ask follows.
pub fn phases_go_on()
    ensures { PhaseGoesOn }
{}

/// It still is after its boot has ended; it keeps the state of before.
pub fn ends_of_boots_keep_phases()
    ensures { PhaseExitKeeps }
{}

/// While its boot is live, what it planned is what it would plan now.
pub fn plans_stay()
    ensures { PhasePlanStays }
{}

/// A phase that asks nothing of anybody is done where it is let in.
pub fn is_phased_at_once()
    ensures { IsPhasedAtOnce }
{}

/// A phase that found no memory before its first ask is done with that one answer.
pub fn is_phased_starved()
    ensures { IsPhasedStarved }
{}

/// A phase that was away, and whose boot is live, is done once nothing is left to be asked.
pub fn is_phased_while_live()
    ensures { IsPhasedLive }
{}

/// A phase that was away, and whose boot has ended meanwhile, is done whatever it was answered.
pub fn is_phased_after_its_boot()
    ensures { IsPhasedEnded }
{}

/// A phase that is let in is away where something is left to be asked, whichever asks found no memory.
pub fn first_phase_is_away()
    ensures { FirstPhaseIsAway }
{}

/// It is done where nothing is.
pub fn first_phase_is_done()
    ensures { FirstPhaseIsDone }
{}

/// A phase that was away is so after one more answer where something is left to be asked, whichever
/// asks found no memory.
pub fn phase_stays_away()
    ensures { PhaseStaysAway }
{}

/// It is done where nothing is.
pub fn is_phased_then()
    ensures { IsPhasedThen }
{}
