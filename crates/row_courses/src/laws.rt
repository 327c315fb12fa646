// Laws of sessions over rows of passes: each function's contract is one, and its body does nothing.
ghost use Rattle.row_courses.specs.Laws.{AnswersHold, CallsAreApart, RowsGoOn};

use service_spec::Service;

/// What each answer rests on is shown by the row that comes back.
pub fn answers_hold_to_the_end<D: Service>()
    ensures { AnswersHold D.is_served D.has_called }
{}

/// The passes of the row that comes back have gone on from those that the calls began with.
pub fn rows_go_on<D: Service>()
    ensures { RowsGoOn D.is_served D.has_called }
{}

/// No two calls of one row rest on one mark, and a later one looks at no less than what an earlier one has left seen.
pub fn no_two_calls_rest_on_one_mark<D: Service>()
    ensures { CallsAreApart D.is_served D.has_called }
{}
