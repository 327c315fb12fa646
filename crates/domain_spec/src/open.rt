use crate::step::Outcome;
use virt_types::{Call, Job, State, Who};

/// A normal job that is held: a call that was let in and is not done. Its fields are read and replaced
/// in place; none is moved out of it.
pub struct OpenJob {
    /// The number of its pass.
    pub number: u64,
    /// The call's caller.
    pub who: Who,
    /// The job.
    pub job: Job,
    /// The call.
    pub call: Call,
    /// The boot that was live where it was let in, or, for a Destroy that waited, at its first look.
    pub boot: Option<u64>,
    /// The state just before that boot ended, where it ended since the call was let in.
    pub before: Option<State>,
}

/// An operation that is under way. Its fields are read and replaced in place; none is moved out of it.
pub struct OpenOperation {
    /// The number of its pass: of the one that began it, or that took it up last.
    pub number: u64,
    /// The caller that began it, or that took it up last.
    pub who: Who,
    /// The call that began it, or that took it up last.
    pub call: Call,
    /// The boot that it works on: its own new one, or the one that was live; none where it works on
    /// no guest.
    pub boot: Option<u64>,
    /// What its last phase led to; before the first phase, and where it was taken up, the phase that is
    /// next.
    pub outcome: Outcome,
}

// Written out, and not derived: so a proof meets one call where they are let go.
impl Drop for OpenJob {
    fn drop(self) {
        let OpenJob {
            number: _,
            who: _,
            job: _,
            call: _,
            boot: _,
            before: _,
        } = self;
    }
}

impl Drop for OpenOperation {
    fn drop(self) {
        let OpenOperation {
            number: _,
            who: _,
            call: _,
            boot: _,
            outcome: _,
        } = self;
    }
}
