// Laws of outcomes: each function's contract is one, and its body does nothing.
ghost use Rattle.outcome_spec.specs.Laws.{AnswersStayTrue, MarksAreOfOneRequest, ReadsAreNotFromBefore, ReadsAreOfNow, RepliesAreSequential, RepliesNeedMarks};

/// A reply without a finished call is none.
pub fn a_reply_needs_a_mark()
    ensures { RepliesNeedMarks }
{}

/// No two requests of one row rest on one mark.
pub fn marks_are_of_one_request()
    ensures { MarksAreOfOneRequest }
{}

/// A read is of no history from before its request.
pub fn reads_are_not_from_before()
    ensures { ReadsAreNotFromBefore }
{}

/// What an answer rests on stays true of a row that goes on.
pub fn answers_stay_true()
    ensures { AnswersStayTrue }
{}

/// A read that came as far as the row has seen is of the state there.
pub fn reads_are_of_now()
    ensures { ReadsAreOfNow }
{}

/// A reply is the sequential driver's where its mark stands, if the history that was seen is legal.
pub fn replies_are_sequential()
    ensures { RepliesAreSequential }
{}
