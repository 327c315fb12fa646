// What the calls of a session share, and what goes from one to the next.
ghost use Rattle.std.specs.Prelude.{◌≡◌, ◌<◌, ◌+◌, ◌^◌};
ghost use Rattle.service_spec.specs.Activities.{next_who};

use std::alloc::Global;
use virt_types::Who;

/// What all calls of a session share.
#[derive(Drop)]
pub(crate) struct Calls<'a, H, D, T> {
    /// Leave to wait.
    pub(crate) rt: &'a H,
    /// Where what they make lies.
    pub(crate) alloc: Global,
    /// Who serves them.
    pub(crate) service: &'a D,
    /// Where they may be held up.
    pub(crate) gate: &'a T,
}

/// What runs calls one after the other: a row, and who the next call is.
#[derive(Drop)]
pub(crate) struct Runner<W> {
    /// The row.
    pub(crate) row: W,
    /// The next call.
    pub(crate) next: Who,
}

/// The call after this one.
pub(crate) fn after(who: Who) -> Who
    requires { who.count + 1 < 2 ^ 64 }
    ensures { result ≡ next_who who }
{
    Who {
        session: who.session,
        lane: who.lane,
        count: who.count + 1,
    }
}
