// A value that is said, and not kept.
ghost use Rattle.std.specs.Borrow.{ftrue};
ghost use Rattle.std.specs.Prelude.{◌≡◌};

use std::marker::{Model, PhantomData};

/// A value that contracts alone see: it is said here, as `value`, and takes no bytes.
#[derive(Drop)]
pub struct Said<T> {
    of: PhantomData<T>,
    pub ghost value: { T },
}

impl<T> Model for Said<T> {
    ghost also_owns = { λ _. ftrue };
}

// It owns nothing.
unsafe impl<T> Send for Said<T> {}

unsafe impl<T> Sync for Said<T> {}

impl<T> Said<T> {
    /// The value that the caller names.
    pub fn named() -> Said<T>
        ghost value: { T }
        ensures { result.value ≡ value }
    {
        Said { of: PhantomData }
    }

    /// The same value once more.
    pub fn again(&self) -> Said<T>
        ensures { result.value ≡ self.now.value }
    {
        after(self)
    }
}

// The value is named in two steps, since a pick sees the callee's arguments alone.
fn after<T>(_old: &Said<T>) -> Said<T>
    ghost value: { T }
    ensures { result.value ≡ value }
{
    Said::named()
}
