// A large value in a place of its own, so that the enum that holds it stays small.
ghost use Rattle.std.specs.Prelude.{◌≡◌, IfOk};

use crate::copy::TryCopy;
use crate::memory::NoMemory;
use std::alloc::Global;
use std::marker::Model;

/// A value in a box of its own, which contracts see as the value.
pub struct Boxed<T> {
    value: Box<T>,
}

impl<T: Drop> Drop for Boxed<T> {
    fn drop(self) {
        let Boxed { value: _ } = self;
    }
}

impl<T> Model for Boxed<T> {
    ghost use Rattle.std.specs.Prelude.{◌≡◌};

    ghost Value = { T };

    ghost view = { λ b. b.value.value };
}

impl<T> Boxed<T> {
    ghost use Rattle.std.specs.Prelude.{◌≡◌, IfOk};
    ghost use Rattle.std.specs.Borrow.{Lends, sem};
    ghost use Rattle.types_base.specs.contracts.boxed.Boxed.{the_row};

    /// The value, in a box.
    pub fn new(alloc: Global, value: T) -> Result<Boxed<T>, NoMemory>
    where
        T: Drop,
        ensures { IfOk result (λ boxed. boxed ≡ value) }
    {
        Ok(Boxed {
            value: Box::new(alloc, value)?,
        })
    }

    /// A copy of this value, in a box.
    pub fn copy_of(alloc: Global, value: &T) -> Result<Boxed<T>, NoMemory>
    where
        T: TryCopy + Drop,
        ensures { IfOk result (λ boxed. boxed ≡ value.now) }
    {
        Boxed::new(alloc, value.copy()?)
    }

    /// The box with this value in place of its own. It takes no memory.
    pub fn with(self, value: T) -> Boxed<T>
    where
        T: Drop,
        ensures { result ≡ value }
    {
        let mut boxed = self;
        *boxed.as_mut() = value;
        boxed
    }

    /// The value without its box.
    pub fn into_inner(self) -> T
        ensures { result ≡ self }
    {
        let Boxed { value } = self;
        Box::into_inner(value)
    }

    /// The value.
    pub fn as_ref(&self) -> &T
        ensures { result.now ≡ self.now }
    {
        &self.value
    }

    /// The value, to be changed in its box.
    pub fn as_mut(&mut self) -> &mut T
        ensures* writes_back { sem 𝓛 (Lends (the_row T.row) T.row self.entry result (λ value. value)) }
        ensures value { result.now ≡ self.old }
    {
        &mut self.value
    }
}

impl<T: TryCopy + Drop> TryCopy for Boxed<T> {
    fn copy(&self) -> Result<Boxed<T>, NoMemory> {
        Boxed::copy_of(*Box::allocator(&self.value), self.as_ref())
    }
}
