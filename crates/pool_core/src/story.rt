// The history of the book, of no bytes.
ghost use Rattle.std.specs.Prelude.{◌≡◌};
ghost use Rattle.std.specs.Borrow.{ftrue};
ghost use Rattle.book_spec.specs.PoolHistory.{PoolHistory};

use std::marker::{Model, PhantomData};

/// What happened to the book. Contracts alone see it, and it takes no bytes. Whoever makes one says
/// what it says.
#[derive(Drop)]
pub struct Story {
    of: PhantomData<u64>,
    pub ghost told: { PoolHistory },
}

impl Model for Story {
    ghost also_owns = { λ _. ftrue };
}

// It owns nothing.
unsafe impl Send for Story {}

unsafe impl Sync for Story {}

impl Story {
    /// The story that the caller tells.
    pub(crate) fn named() -> Story
        ghost told: { PoolHistory }
        ensures { result.told ≡ told }
    {
        Story { of: PhantomData }
    }
}
