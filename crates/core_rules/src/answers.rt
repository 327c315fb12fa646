// What answers say of the asks that they answer.
ghost use Rattle.std.specs.Prelude.{◌≡◌, option_map};
ghost use Rattle.domain_spec.specs.Asks.{first_bad, first_bad_at, first_value, is_ok_answer, is_undone, last_value, value_of};
ghost use Rattle.domain_spec.specs.Refusals.{failure_of};
ghost use Rattle.core_rules.specs.Reasons.{refusal_for};

use crate::reason::Reason;
use virt_types::{Answer, AnswerValue, RefusalCode};

/// Whether an ask was done.
pub fn is_ok_answer(answer: &Answer) -> bool
    ensures { result ≡ is_ok_answer answer.now }
{
    matches!(answer, Answer::Ok(_))
}

/// Whether the undo of an ask follows this answer.
pub fn is_undone(answer: &Answer) -> bool
    ensures { result ≡ is_undone answer.now }
{
    matches!(
        answer,
        Answer::Refused(_) | Answer::Device | Answer::NoMemory
    )
}

/// The place of the first answer that is not Ok.
pub fn first_bad_at(answers: &[Answer]) -> Option<usize>
    ensures { result ≡ first_bad_at answers.now }
{
    answers.iter().position(|answer| !is_ok_answer(answer))
}

/// The first answer that is not Ok.
pub fn first_bad(answers: &[Answer]) -> Option<&Answer>
    ensures { option_map (λ a. a.now) result ≡ first_bad answers.now }
{
    answers.iter().find(|answer| !is_ok_answer(answer))
}

// The value of an answer Ok.
fn value_of(answer: &Answer) -> Option<&AnswerValue>
    ensures { option_map (λ v. v.now) result ≡ value_of answer.now }
{
    match answer {
        Answer::Ok(value) => Some(value),
        _ => None,
    }
}

/// The value that the first ask was answered.
pub fn first_value(answers: &[Answer]) -> Option<&AnswerValue>
    ensures { option_map (λ v. v.now) result ≡ first_value answers.now }
{
    match answers {
        [] => None,
        [first, ..] => value_of(first),
    }
}

/// The value that the last ask was answered.
pub fn last_value(answers: &[Answer]) -> Option<&AnswerValue>
    ensures { option_map (λ v. v.now) result ≡ last_value answers.now }
{
    match answers {
        [] => None,
        [last] => value_of(last),
        [_first, rest @ ..] => last_value(rest),
    }
}

/// Why a call is refused whose ask was answered so, and not Ok.
pub fn failure_of(answer: &Answer) -> Reason
    ensures { refusal_for result ≡ failure_of answer.now }
{
    match answer {
        Answer::Refused(class) => Reason::Failed(*class),
        Answer::Device => Reason::Bare(RefusalCode::StoreFailed),
        Answer::NoMemory => Reason::Bare(RefusalCode::NoMemory),
        _ => Reason::Bare(RefusalCode::MonitorLost),
    }
}
