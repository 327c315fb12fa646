// A piece of work is posted to a thread of a scope, and waited for.
ghost use denote.Param.Send.{IsSync};
ghost use Rattle.std.specs.Prelude.{◌≡◌};
ghost use Rattle.work_threads.specs.Posting.{IsLeftOf, IsPosted, is_running};

use crate::job::Job;
use std::snapshot::Snapshot;
use std::sync::Wait;
use std::thread::{Promise, PromisedHandle, Scope, Threads};

/// What a thread promises that does a piece of work: what is left was done so, of this work over
/// these things.
#[derive(Drop)]
pub struct DoneBy<C, O, J> {
    pub shared: Snapshot<C>,
    pub own: Snapshot<O>,
    pub job: Snapshot<J>,
}

impl<C, O, J: Job<C, O, X>, X> Promise<X> for DoneBy<C, O, J> {
    ghost kept_by = { λ p x. J.has_done p.shared.value p.own.value p.job.value x };
}

/// A piece of work that is under way in a thread of its own, or what is left of it, where no thread
/// could be started for it.
#[derive(Drop)]
pub enum Posted<C, O, J: Job<C, O, X>, X> {
    Running(PromisedHandle<X, DoneBy<C, O, J>>),
    Done(X),
}

impl<C, O, J: Job<C, O, X>, X> Posted<C, O, J, X> {
    /// Whether it has a thread of its own.
    pub fn is_running(&self) -> bool
        ensures { result ≡ is_running self.now }
    {
        match self {
            Posted::Running(_) => true,
            Posted::Done(_) => false,
        }
    }
}

/// Posts a piece of work to a thread of the scope. Where none can be started, `refused` is called,
/// and then the work is done at once, here, with the same promise.
pub fn post<'s, E, R, C, O, J, X, F>(
    scope: &Scope<'s, E>,
    rt: &'s R,
    shared: &'s C,
    own: &'s O,
    job: J,
    refused: F,
) -> Posted<C, O, J, X>
where
    R: Threads + Wait + Sync + 's,
    C: Sync + 's,
    O: Sync + 's,
    J: Job<C, O, X> + Send + Drop + 's,
    X: Send + Drop + 's,
    F: FnOnce() + Drop,
    requires may { J.may_do shared.now own.now job }
    requires refused { F.IsAlwaysCallable refused }
    ensures { IsPosted J.has_done shared.now own.now job result }
{
    let promise = DoneBy {
        shared: Snapshot::of(shared),
        own: Snapshot::of(own),
        job: Snapshot::of(&job),
    };
    let started = scope.spawn_with(
        promise,
        move || -> X
            requires { J.may_do shared.now own.now job × IsSync R.row }
            ensures { J.has_done shared.entry.now own.entry.now job result }
        { job.done(rt, shared, own) },
    );
    match started {
        Ok(handle) => Posted::Running(handle),
        Err(back) => {
            refused();
            Posted::Done((back.value)())
        }
    }
}

/// Waits for the work, and gives what is left of it.
pub fn wait<R: Threads, C, O, J: Job<C, O, X>, X: Drop>(rt: &R, posted: Posted<C, O, J, X>) -> X
    ensures { IsLeftOf J.has_done posted result }
{
    match posted {
        Posted::Running(handle) => handle.join(rt),
        Posted::Done(left) => left,
    }
}
