// Who left how many marks of a history.
use domain_spec::Mark;
use history_spec::Stamp;

// The session whose pass left a mark; none left the ends and events of guests.
fn session_of(mark: &Mark<Stamp>) -> Option<u64> {
    match mark {
        Mark::Admit { who, .. } => Some(who.session),
        Mark::Done { who, .. } => Some(who.session),
        Mark::Refused { who, .. } => Some(who.session),
        Mark::Start { who, .. } => Some(who.session),
        Mark::TakeUp { who, .. } => Some(who.session),
        Mark::Phase { who, .. } => Some(who.session),
        Mark::End { who, .. } => Some(who.session),
        _ => None,
    }
}

/// How many marks that session left.
pub(crate) fn count_of(marks: &[Mark<Stamp>], session: Option<u64>) -> u64 {
    let mut count: u64 = 0;
    for mark in marks {
        if session_of(mark) == session {
            count = count.saturating_add(1);
        }
    }
    count
}
