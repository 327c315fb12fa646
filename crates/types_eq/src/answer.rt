// What asks are answered.
use crate::parts::Same;
use virt_types::{Answer, AnswerValue};

impl Same for AnswerValue {
    fn same(&self, other: &AnswerValue) -> bool {
        match self {
            AnswerValue::Nothing => matches!(other, AnswerValue::Nothing),
            AnswerValue::Number(it) => match other {
                AnswerValue::Number(that) => *it == *that,
                _ => false,
            },
            AnswerValue::Bytes(it) => match other {
                AnswerValue::Bytes(that) => it.same(that),
                _ => false,
            },
            AnswerValue::Front(it) => match other {
                AnswerValue::Front(that) => it.same(that),
                _ => false,
            },
        }
    }
}

impl Same for Answer {
    fn same(&self, other: &Answer) -> bool {
        match self {
            Answer::Ok(it) => match other {
                Answer::Ok(that) => it.same(that),
                _ => false,
            },
            Answer::Refused(it) => match other {
                Answer::Refused(that) => *it == *that,
                _ => false,
            },
            Answer::Ended(it) => match other {
                Answer::Ended(that) => it.same(that),
                _ => false,
            },
            Answer::Lost => matches!(other, Answer::Lost),
            Answer::Device => matches!(other, Answer::Device),
            Answer::NoMemory => matches!(other, Answer::NoMemory),
        }
    }
}
