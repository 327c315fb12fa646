// The passes by which callers wait, of no bytes.
ghost use Rattle.std.specs.Prelude.{◌≡◌, List, ℕ, ◌++◌, ◌∷◌, []};
ghost use Rattle.std.specs.Borrow.{ftrue};
ghost use Rattle.domain_spec.specs.Cell.{WaitingPass};
ghost use Rattle.domain_spec.specs.Kept.{without_pass};

use std::marker::{Model, PhantomData};
use virt_types::Who;

/// The passes by which callers wait for a domain. Contracts alone see them, and they take no bytes.
#[derive(Drop)]
pub(crate) struct Passes {
    of: PhantomData<u64>,
    pub ghost list: { List WaitingPass },
}

impl Model for Passes {
    ghost also_owns = { λ _. ftrue };
}

// They own nothing.
unsafe impl Send for Passes {}

unsafe impl Sync for Passes {}

impl Passes {
    // Those that the caller names.
    pub(crate) fn named() -> Passes
        ghost list: { List WaitingPass }
        ensures { result.list ≡ list }
    {
        Passes { of: PhantomData }
    }

    /// Nobody waits.
    pub(crate) fn none() -> Passes
        ensures { result.list ≡ [] }
    {
        Passes::named()
    }

    /// The pass of this number waits too, as this caller.
    pub(crate) fn with(&self, who: Who) -> Passes
        ghost number: { ℕ }
        ensures { result.list ≡ without_pass self.now.list number ++ record { number = number; who = who } ∷ [] }
    {
        after(self, who)
    }

    /// The pass of this number waits no more.
    pub(crate) fn without(&self, who: Who) -> Passes
        ghost number: { ℕ }
        ensures { result.list ≡ without_pass self.now.list number }
    {
        after(self, who)
    }
}

// The passes are named in two steps, since a pick sees the callee's arguments alone.
fn after(_old: &Passes, _who: Who) -> Passes
    ghost list: { List WaitingPass }
    ensures { result.list ≡ list }
{
    Passes::named()
}
