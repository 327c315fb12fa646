// The history of a store, of no bytes.
ghost use Rattle.std.specs.Prelude.{◌≡◌};
ghost use Rattle.std.specs.Borrow.{ftrue};
ghost use Rattle.def_keeper.specs.Marks.{StoreHistory};

use std::marker::{Model, PhantomData};

/// What happened to a store. Contracts alone see it, and it takes no bytes. Whoever makes one says
/// what it tells.
#[derive(Drop)]
pub struct Story {
    of: PhantomData<u64>,
    pub ghost told: { StoreHistory },
}

impl Model for Story {
    ghost also_owns = { λ _. ftrue };
}

// It owns nothing.
unsafe impl Send for Story {}

unsafe impl Sync for Story {}

impl Story {
    /// The story that the caller tells.
    pub(crate) fn named() -> Story
        ghost told: { StoreHistory }
        ensures { result.told ≡ told }
    {
        Story { of: PhantomData }
    }
}
