// The history of the list, of no bytes.
ghost use Rattle.std.specs.Prelude.{◌≡◌};
ghost use Rattle.std.specs.Borrow.{ftrue};
ghost use Rattle.book_spec.specs.ListHistory.{ListHistory};

use std::marker::{Model, PhantomData};

/// What happened to the list. Contracts alone see it, and it takes no bytes. Whoever makes one says
/// what it tells.
#[derive(Drop)]
pub struct Story {
    of: PhantomData<u64>,
    pub ghost told: { ListHistory },
}

impl Model for Story {
    ghost also_owns = { λ _. ftrue };
}

// It owns nothing.
unsafe impl Send for Story {}

unsafe impl Sync for Story {}

impl Story {
    /// The story that the caller tells.
    pub(crate) fn named() -> Story
        ghost told: { ListHistory }
        ensures { result.told ≡ told }
    {
        Story { of: PhantomData }
    }
}
