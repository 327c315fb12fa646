use std::sync::Wait;

/// A piece of work over what all pieces share, a `C`. What is left of it when it is done is an `X`.
pub trait Work<C, X> {
    // Whether it may be done.
    ghost may_do: { C → Self → Type 0 };

    // How it was done.
    ghost has_done: { C → Self → X → Type 0 };

    /// Does it. It may wait.
    fn done<R: Wait>(self, rt: &R, shared: &C) -> X
        requires { may_do shared.now self }
        ensures { has_done shared.now self result };
}
