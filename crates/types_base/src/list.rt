// Lists: a `Vec` that contracts see as its list, so that what holds one is seen without its allocator.
ghost use Rattle.std.specs.Prelude.{◌≡◌, ◌==◌, ◌++◌, ◌∷◌, [], length, OnOk, OnErr};

use crate::copy::TryCopy;
use crate::memory::NoMemory;
use std::alloc::Global;
use std::marker::Model;

/// Values in order, which contracts see as their list.
pub struct ListOf<T> {
    entries: Vec<T>,
}

impl<T: Drop> Drop for ListOf<T> {
    fn drop(self) {
        let ListOf { entries: _ } = self;
    }
}

impl<T> Model for ListOf<T> {
    ghost use Rattle.std.specs.Prelude.{List};

    ghost Value = { List T };

    ghost view = { λ l. l.entries.items };
}

impl<T> ListOf<T> {
    /// The empty list. It takes no memory before its first value.
    pub fn new(alloc: Global) -> ListOf<T>
        ensures { result ≡ [] }
    {
        ListOf {
            entries: Vec::new(alloc),
        }
    }

    /// The values of this vector.
    pub fn of(entries: Vec<T>) -> ListOf<T>
        ensures { result ≡ entries.items }
    {
        ListOf { entries }
    }

    /// The vector that this list is.
    pub fn into_vec(self) -> Vec<T>
        ensures { result.items ≡ self }
    {
        let ListOf { entries } = self;
        entries
    }

    /// The values.
    pub fn as_slice(&self) -> &[T]
        ensures { result.now ≡ self.now }
    {
        self.entries.as_slice()
    }

    /// How many there are.
    pub fn len(&self) -> usize
        ensures { result ≡ length self.now }
    {
        self.entries.len()
    }

    /// Whether there are none.
    pub fn is_empty(&self) -> bool
        ensures { result ≡ (length self.now == 0) }
    {
        self.entries.is_empty()
    }

    /// Puts a value after the others.
    pub fn push(&mut self, entry: T) -> Result<(), NoMemory>
    where
        T: Drop,
        ensures ok { OnOk result (self.new ≡ self.old ++ entry ∷ []) }
        ensures err { OnErr result (self.new ≡ self.old) }
    {
        Ok(self.entries.push(entry)?)
    }
}

impl<T: TryCopy + Drop> TryCopy for ListOf<T> {
    fn copy(&self) -> Result<ListOf<T>, NoMemory> {
        let mut entries = Vec::with_capacity(*self.entries.allocator(), self.entries.len())?;
        for entry in self.entries.as_slice() {
            entries.push(entry.copy()?)?;
        }
        Ok(ListOf { entries })
    }
}
