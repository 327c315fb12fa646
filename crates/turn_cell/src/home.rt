ghost use Rattle.std.specs.Prelude.{◌≡◌, IfOk, IfErr};
ghost use Rattle.std.specs.Borrow.{Lends, sem};
ghost use Rattle.turn_cell.specs.contracts.home.Home.{the_row};

use std::alloc::Global;
use std::marker::Model;

/// A value on the heap, so that a turn moves its address and never the value. Contracts see the
/// value.
pub struct Home<T> {
    boxed: Box<T>,
}

impl<T> Model for Home<T> {
    ghost use Rattle.std.specs.Prelude.{ℕ};

    ghost Value = { T };

    ghost view = { λ h. h.boxed.value };
}

impl<T> Home<T> {
    /// Brings a value home. Where there is no memory it comes back.
    pub(crate) fn new(alloc: Global, value: T) -> Result<Home<T>, T>
        ensures ok { IfOk result (λ home. home ≡ value) }
        ensures err { IfErr result (λ back. back ≡ value) }
    {
        match Box::new(alloc, value) {
            Ok(boxed) => Ok(Home { boxed }),
            Err(failed) => Err(failed.value),
        }
    }

    pub(crate) fn get(&self) -> &T
        ensures { result.now ≡ self.now }
    {
        self.boxed.as_ref()
    }

    pub(crate) fn get_mut(&mut self) -> &mut T
        ensures* writes_back { sem 𝓛 (Lends (the_row T.row) T.row self.entry result (λ value. value)) }
        ensures value { result.now ≡ self.old }
    {
        self.boxed.as_mut()
    }

    pub(crate) fn into_inner(self) -> T
        ensures { result ≡ self }
    {
        let Home { boxed } = self;
        Box::into_inner(boxed)
    }
}

impl<T: Drop> Drop for Home<T> {
    fn drop(self) {
        drop(self.into_inner());
    }
}
