ghost use denote.Param.Send.{IsSync};

use std::sync::Wait;
use std::thread::Threads;

/// A piece of work in a thread of a scope, over two things that its pieces share: a `C` that comes
/// from outside, and an `O` that is the scope's own. Neither type may name a lifetime: the clauses
/// of a thread's closure are lost over one that does. What is left when it is done is an `X`.
pub trait Job<C, O, X> {
    // Whether it may be done.
    ghost may_do: { C → O → Self → Type 0 };

    // How it was done.
    ghost has_done: { C → O → Self → X → Type 0 };

    /// Does it. It may wait, and start threads of its own.
    fn done<R: Threads + Wait + Sync>(self, rt: &R, shared: &C, own: &O) -> X
        requires may { may_do shared.now own.now self }
        requires sync { IsSync R.row }
        ensures { has_done shared.now own.now self result };
}
