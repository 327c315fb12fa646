// What asks are answered, and the normal jobs under which calls make them.
ghost use Rattle.std.specs.Prelude.{◌≡◌};
ghost use Rattle.virt_types.specs.Numbers.{job_word};

use crate::ask::Ask;
use crate::run_state::EndReason;
use types_base::{Bytes, Front, ListOf, NoMemory, TryCopy, Who};

/// What an ask gives that was done.
pub enum AnswerValue {
    /// Nothing.
    Nothing,
    /// A number: the guest's memory in KiB, or how much of a copy is left.
    Number(u64),
    /// The bytes of a copy.
    Bytes(Bytes),
    /// The place of the store's history that ends with the mark of this change.
    Front(Front),
}

impl Drop for AnswerValue {
    fn drop(self) {
        match self {
            AnswerValue::Nothing => {}
            AnswerValue::Number(_) => {}
            AnswerValue::Bytes(_) => {}
            AnswerValue::Front(_) => {}
        }
    }
}

impl TryCopy for AnswerValue {
    fn copy(&self) -> Result<AnswerValue, NoMemory> {
        Ok(match self {
            AnswerValue::Nothing => AnswerValue::Nothing,
            AnswerValue::Number(it) => AnswerValue::Number(*it),
            AnswerValue::Bytes(it) => AnswerValue::Bytes(it.copy()?),
            AnswerValue::Front(it) => AnswerValue::Front(*it),
        })
    }
}

/// What an ask is answered.
pub enum Answer {
    /// It was done, and gives this.
    Ok(AnswerValue),
    /// It was refused, with this class: a guest's own are 1 to 9.
    Refused(u32),
    /// The guest has ended.
    Ended(EndReason),
    /// The link to the guest was lost.
    Lost,
    /// The store failed.
    Device,
    /// There was no memory for it.
    NoMemory,
}

impl Drop for Answer {
    fn drop(self) {
        match self {
            Answer::Ok(_) => {}
            Answer::Refused(_) => {}
            Answer::Ended(_) => {}
            Answer::Lost => {}
            Answer::Device => {}
            Answer::NoMemory => {}
        }
    }
}

impl TryCopy for Answer {
    fn copy(&self) -> Result<Answer, NoMemory> {
        Ok(match self {
            Answer::Ok(it) => Answer::Ok(it.copy()?),
            Answer::Refused(it) => Answer::Refused(*it),
            Answer::Ended(it) => Answer::Ended(*it),
            Answer::Lost => Answer::Lost,
            Answer::Device => Answer::Device,
            Answer::NoMemory => Answer::NoMemory,
        })
    }
}

/// Asks in order.
pub type AskList = ListOf<Ask>;

/// Answers in order.
pub type AnswerList = ListOf<Answer>;

/// Callers in order.
pub type WhoList = ListOf<Who>;

/// A normal job, of which at most one is held for a domain (libvirt's `src/qemu/THREADS.txt`).
#[derive(Clone, Copy, Debug, PartialEq, Eq)]
pub enum Job {
    /// The guest is asked something.
    Query,
    /// The guest is ended.
    Destroy,
    /// The guest is stopped.
    Suspend,
    /// Anything else is changed.
    Modify,
    /// The operation under way is to be given up.
    Abort,
    /// A migration is steered or taken up.
    MigrationOp,
    /// A phase of the operation under way.
    Nested,
}

impl Job {
    /// The word for it.
    pub fn word(self) -> &'static str
        ensures { result.now ≡ job_word self }
    {
        match self {
            Job::Query => "query",
            Job::Destroy => "destroy",
            Job::Suspend => "suspend",
            Job::Modify => "modify",
            Job::Abort => "abort",
            Job::MigrationOp => "migration",
            Job::Nested => "nested",
        }
    }
}
