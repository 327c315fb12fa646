// The jobs that are held for a domain, and which more may be taken.
ghost use Rattle.std.specs.Prelude.{◌≡◌, ◌↔◌, [], IfErr, IsErr, IsTrue, OnErr, OnOk, false};
ghost use Rattle.domain_spec.specs.JobTable.{May, MayBegin, MayTakeUp};
ghost use Rattle.domain_spec.specs.Open.{IsCrowded};
ghost use Rattle.job_rules.specs.Resting.{rested, taken_up};
ghost use Rattle.job_rules.specs.Waiting.{joined, without};

use crate::mask::admitted_jobs;
use crate::waiters::{Waiters, WaitersFull};
use domain_spec::HeldOperation;
use virt_types::{Job, OpKind, Who};

/// The jobs that are held for a domain, and who waits. It is plain data, and no change of it takes
/// memory.
#[derive(Clone, Copy)]
pub struct JobRecord {
    /// The normal job that is held, and who holds it.
    pub active: Option<(Job, Who)>,
    /// The operation that is held.
    pub op: Option<HeldOperation>,
    /// Who waits.
    pub waiting: Waiters,
}

/// Whether a job may be taken beside what is held.
pub fn admits(held: &JobRecord, job: Job, who: Who) -> bool
    ensures { IsTrue result ↔ May held.now.active held.now.op job who }
{
    match (held.active, held.op) {
        (Some(_), _) => false,
        (None, None) => job != Job::Nested,
        (None, Some(op)) if job == Job::Nested => who == op.who && !op.rests,
        (None, Some(op)) => admitted_jobs(op.kind).contains(&job),
    }
}

/// Whether an operation may begin beside what is held.
pub fn may_begin(held: &JobRecord) -> bool
    ensures { IsTrue result ↔ MayBegin held.now.active held.now.op }
{
    held.active.is_none() && held.op.is_none()
}

/// Whether a call may look for a resting operation to take up: nobody else works on the domain.
pub fn may_take_up(held: &JobRecord) -> bool
    ensures { IsTrue result ↔ MayTakeUp held.now.active held.now.op }
{
    match (held.active, held.op) {
        (Some(_), _) => false,
        (None, None) => true,
        (None, Some(op)) => op.rests,
    }
}

impl JobRecord {
    /// Nothing is held, and nobody waits.
    pub fn new() -> JobRecord
        ensures { result ≡ record { active = None; op = None; waiting = [] } }
    {
        JobRecord {
            active: None,
            op: None,
            waiting: Waiters::new(),
        }
    }

    /// The caller takes a normal job, and waits no more.
    pub fn take_job(&mut self, job: Job, who: Who)
        requires { May self.old.active self.old.op job who }
        ensures { self.new ≡ record self.old { active = Some (job, who); waiting = without self.old.waiting who } }
    {
        self.active = Some((job, who));
        self.waiting.unwait(who);
    }

    /// The normal job is done.
    pub fn drop_job(&mut self)
        ensures { self.new ≡ record self.old { active = None } }
    {
        self.active = None;
    }

    /// The caller begins an operation, and waits no more.
    pub fn begin(&mut self, kind: OpKind, who: Who)
        requires { MayBegin self.old.active self.old.op }
        ensures { self.new ≡ record self.old { op = Some (record { kind = kind; who = who; rests = false }); waiting = without self.old.waiting who } }
    {
        self.op = Some(HeldOperation {
            kind,
            who,
            rests: false,
        });
        self.waiting.unwait(who);
    }

    /// The caller takes up the operation that rests, and waits no more. Where there is none, none is
    /// held afterwards.
    pub fn take_up(&mut self, who: Who)
        requires { MayTakeUp self.old.active self.old.op }
        ensures { self.new ≡ record self.old { op = taken_up self.old.op who; waiting = without self.old.waiting who } }
    {
        if let Some(op) = &mut self.op {
            op.who = who;
            op.rests = false;
        }
        self.waiting.unwait(who);
    }

    /// The operation rests until a call takes it up.
    pub fn rest_op(&mut self)
        ensures { self.new ≡ record self.old { op = rested self.old.op } }
    {
        if let Some(op) = &mut self.op {
            op.rests = true;
        }
    }

    /// The operation has ended.
    pub fn finish(&mut self)
        ensures { self.new ≡ record self.old { op = None } }
    {
        self.op = None;
    }

    /// The caller waits from now on. One who waits already stays where they are.
    pub fn wait(&mut self, who: Who) -> Result<(), WaitersFull>
        ensures ok { OnOk result (self.new ≡ record self.old { waiting = joined self.old.waiting who }) }
        ensures crowded { IsErr result ↔ IsCrowded self.old.waiting who }
        ensures count { IfErr result (λ full. full.waiting ≡ 32) }
        ensures err { OnErr result (self.new ≡ self.old) }
    {
        self.waiting.wait(who)
    }

    /// The caller waits no more.
    pub fn unwait(&mut self, who: Who)
        ensures { self.new ≡ record self.old { waiting = without self.old.waiting who } }
    {
        self.waiting.unwait(who);
    }
}
