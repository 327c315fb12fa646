// What a story is played on.
ghost use Rattle.std.specs.Prelude.{◌≡◌, ◌<◌, ℕ, None};
ghost use Rattle.domain_spec.specs.Call.{takes_up};

use domain_threads::{Chronicle, Hushed, Queried};
use std::alloc::Global;
use std::sync::Wait;
use virt_types::{Call, Reply, Who};

/// The first pass of a stage, and how many were cut off it and did not come back.
#[derive(Drop)]
pub(crate) struct Home<P> {
    pub(crate) pass: P,
    pub(crate) out: u64,
}

/// A domain at which those who act take turns, each with a pass that has nothing open between two steps, and a desk, which is
/// asked. What a story does is written over this trait, so that no proof of it walks through a domain and its passes.
pub(crate) trait Stage<D> {
    /// What one acts with.
    type Pass: Drop;

    // It is a pass of this domain, with one part, that has nothing open.
    ghost is_part: { Self → Self.Pass → Type 0 };

    // It is the first pass of this domain, which has nothing open; so many parts were cut off it and did not come back.
    ghost is_home: { Self → Self.Pass → ℕ → Type 0 };

    /// A call to its end, which takes no operation up.
    fn call<R: Wait>(
        &self,
        rt: &R,
        alloc: Global,
        pass: Self::Pass,
        who: Who,
        call: &Call,
        desk: &mut D,
    ) -> (Self::Pass, Reply)
        requires part { is_part self.now pass }
        requires takes { takes_up call.now ≡ None }
        ensures { is_part self.now result.0 };

    /// Reads the state.
    fn look<R: Wait>(&self, rt: &R, alloc: Global, pass: Self::Pass) -> (Self::Pass, Queried)
        requires { is_part self.now pass }
        ensures { is_part self.now result.0 };

    /// Hears the guest.
    fn listen<R: Wait>(&self, rt: &R, alloc: Global, pass: Self::Pass) -> (Self::Pass, Hushed)
        requires { is_part self.now pass }
        ensures { is_part self.now result.0 };

    /// Cuts a pass off the first one.
    fn cut_off(&self, home: Home<Self::Pass>) -> (Home<Self::Pass>, Self::Pass)
        requires home { is_home self.now home.pass home.out }
        requires few { home.out < 100 }
        ensures home { is_home self.now result.0.pass result.0.out }
        ensures part { is_part self.now result.1 };

    /// A pass comes back in a turn of its own, if a ticket is left for that.
    fn take_back<R: Wait>(
        &self,
        rt: &R,
        home: Home<Self::Pass>,
        part: Self::Pass,
    ) -> Home<Self::Pass>
        requires home { is_home self.now home.pass home.out }
        requires part { is_part self.now part }
        ensures { is_home self.now result.pass result.out };

    /// The history of the domain, if all passes came back.
    fn end(self, home: Home<Self::Pass>) -> Option<Chronicle>
        requires { is_home self home.pass home.out };
}
