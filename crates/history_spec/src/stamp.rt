ghost use Rattle.std.specs.Prelude.{◌≡◌, ℕ};
ghost use Rattle.std.specs.Borrow.{ftrue};

use std::marker::{Model, PhantomData};

/// The number of the pass in whose turn a mark was made. Contracts alone see it, and it takes no
/// bytes. A call that leaves marks has a clause `ghost number: { ℕ }`, and its caller says which.
#[derive(Drop)]
pub struct Stamp {
    of: PhantomData<u64>,
    pub ghost number: { ℕ },
}

impl Model for Stamp {
    ghost also_owns = { λ _. ftrue };
}

// It owns nothing.
unsafe impl Send for Stamp {}

unsafe impl Sync for Stamp {}

impl Stamp {
    /// The stamp of the number that the caller names.
    pub fn named() -> Stamp
        ghost number: { ℕ }
        ensures { result.number ≡ number }
    {
        Stamp { of: PhantomData }
    }

    /// The same stamp once more.
    pub fn again(&self) -> Stamp
        ensures { result.number ≡ self.now.number }
    {
        copy_of(self)
    }
}

// The number of a stamp is named in two steps, since a pick sees the callee's arguments alone.
fn copy_of(stamp: &Stamp) -> Stamp
    ghost number: { ℕ }
    requires { stamp.now.number ≡ number }
    ensures { result.number ≡ number }
{
    Stamp::named()
}
