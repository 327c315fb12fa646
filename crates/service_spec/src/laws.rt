// Laws of sessions: each function's contract is one, and its body does nothing.
ghost use Rattle.service_spec.specs.Laws.{CallsComeInTurn, CoursesRunCalls};

use crate::service::Service;

/// Where a front of the calls of an activity ends, the others begin.
pub fn calls_come_in_turn<D: Service>()
    ensures { CallsComeInTurn D.is_served D.has_called }
{}

/// What a session leaves is what its calls leave: those that it answered, and at most one more.
pub fn courses_run_their_calls<D: Service>()
    ensures { CoursesRunCalls D.is_served D.has_called }
{}
