// An operation that is under way in a cell, and a call that was let in.
ghost use Rattle.std.specs.Prelude.{◌≡◌, IfOk, None, Some, if◌then◌else◌};
ghost use Rattle.domain_spec.specs.Fold.{carries, job_at_exit, taken_up};
ghost use Rattle.core_chapter.specs.Closing.{reply_of};

use core_state::phase_taken_up;
use domain_spec::{OpenOperation, Outcome};
use history_spec::Stamp;
use std::marker::Model;
use std::mem;
use std::snapshot::Snapshot;
use virt_types::{Call, Job, NoMemory, Phase, Reply, State, TryCopy, Value, Who, both};

/// An operation that is under way. Contracts see it with the number of its pass; the number in
/// `shown` says nothing.
#[derive(Drop)]
pub struct Underway {
    by: Stamp,
    shown: OpenOperation,
}

impl Model for Underway {
    ghost use Rattle.domain_spec.specs.declared.open.OpenOperation.{OpenOperation};

    ghost Value = { OpenOperation };

    ghost view = { λ o. record o.shown { number = o.by.number } };
}

impl Underway {
    /// The operation that this call has begun.
    pub fn begun(by: Stamp, who: Who, call: Call, boot: Option<u64>, outcome: Outcome) -> Underway
        ensures { result ≡ record { number = by.number; who = who; call = call; boot = boot; outcome = outcome } }
    {
        Underway {
            by,
            shown: OpenOperation {
                number: 0,
                who,
                call,
                boot,
                outcome,
            },
        }
    }

    /// The call that began it, or that took it up last.
    pub fn call(&self) -> &Call
        ensures { result.now ≡ self.now.call }
    {
        &self.shown.call
    }

    /// Its caller.
    pub fn who(&self) -> Who
        ensures { result ≡ self.now.who }
    {
        self.shown.who
    }

    /// The boot that it works on.
    pub fn boot(&self) -> Option<u64>
        ensures { result ≡ self.now.boot }
    {
        self.shown.boot
    }

    /// The operation as the driver's parts read it; they never read its number.
    pub fn shown(&self) -> &OpenOperation
        ensures { record result.now { number = self.now.number } ≡ self.now }
    {
        &self.shown
    }

    /// A call takes it up, where it rests.
    pub fn taken_up(&mut self, by: Stamp, who: Who, call: Call)
        ensures { self.new ≡ taken_up by.number who call self.old }
    {
        self.by = by;
        self.shown.who = who;
        self.shown.outcome = Outcome::On(phase_taken_up(&call));
        self.shown.call = call;
    }

    /// What its last phase led to.
    pub fn outcome(&self) -> &Outcome
        ensures { result.now ≡ self.now.outcome }
    {
        &self.shown.outcome
    }

    /// The same operation, for the next chapter.
    pub fn copy(&self) -> Result<Underway, NoMemory>
        ensures { IfOk result (λ it. it ≡ self.now) }
    {
        let (call, outcome) = both(self.shown.call.copy(), self.shown.outcome.copy())?;
        Ok(Underway::begun(
            self.by.again(),
            self.shown.who,
            call,
            self.shown.boot,
            outcome,
        ))
    }

    /// The reply of an operation that is over, without the rest.
    pub fn into_reply(self) -> Reply
        ensures { result ≡ reply_of self.outcome }
    {
        let mut operation = self;
        match mem::replace(&mut operation.shown.outcome, Outcome::On(Phase::Nothing)) {
            Outcome::Over(reply) => reply,
            _ => Reply::Ok(Value::Nothing),
        }
    }

    /// A phase led to this.
    pub fn go_on(&mut self, outcome: Outcome)
        ensures { self.new ≡ record self.old { outcome = outcome } }
    {
        self.shown.outcome = outcome;
    }
}

/// A call that was let in and is not done. Contracts see it with the number of its pass, and with
/// the state just before its boot ended, where it has ended since.
pub struct LetIn {
    by: Stamp,
    who: Who,
    job: Job,
    call: Call,
    boot: Option<u64>,
    before: Option<Snapshot<State>>,
}

impl Model for LetIn {
    ghost use Rattle.std.specs.Prelude.{option_map};
    ghost use Rattle.domain_spec.specs.declared.open.OpenJob.{OpenJob};

    ghost Value = { OpenJob };

    ghost view = { λ j. record { number = j.by.number; who = j.who; job = j.job; call = j.call; boot = j.boot; before = option_map (λ s. s.value) j.before } };
}

impl Drop for LetIn {
    fn drop(self) {
        let LetIn {
            by: _,
            who: _,
            job: _,
            call: _,
            boot: _,
            before: _,
        } = self;
    }
}

impl LetIn {
    /// A call that is let in now.
    pub fn now(by: Stamp, who: Who, job: Job, call: Call, boot: Option<u64>) -> LetIn
        ensures { result ≡ record { number = by.number; who = who; job = job; call = call; boot = boot; before = None } }
    {
        LetIn {
            by,
            who,
            job,
            call,
            boot,
            before: None,
        }
    }

    /// Its caller.
    pub fn who(&self) -> Who
        ensures { result ≡ self.now.who }
    {
        self.who
    }

    /// Its job.
    pub fn job(&self) -> Job
        ensures { result ≡ self.now.job }
    {
        self.job
    }

    /// The call.
    pub fn call(&self) -> &Call
        ensures { result.now ≡ self.now.call }
    {
        &self.call
    }

    /// The boot that it carries.
    pub fn boot(&self) -> Option<u64>
        ensures { result ≡ self.now.boot }
    {
        self.boot
    }

    /// The call, without the rest.
    pub fn into_call(self) -> Call
        ensures { result ≡ self.call }
    {
        let mut job = self;
        mem::replace(&mut job.call, Call::Suspend)
    }

    /// A boot ends in this state.
    pub fn meets_exit(&mut self, state: &State, boot: u64)
        ensures { Some self.new ≡ job_at_exit state.now boot (Some self.old) }
    {
        if self.boot == Some(boot) {
            self.before = Some(Snapshot::of(state));
        }
    }
}
