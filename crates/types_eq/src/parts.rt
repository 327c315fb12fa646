// The trait, and the collections of which larger values are made.
ghost use Rattle.std.specs.Prelude.{◌≡◌, ◌↔◌, IsTrue};

use virt_types::{Boxed, Bytes, ListOf, Name, Text};

/// A value that can be compared with another.
pub trait Same {
    /// Whether the other is the same.
    fn same(&self, other: &Self) -> bool
        ensures { IsTrue result ↔ (self.now ≡ other.now) };
}

impl Same for Text {
    fn same(&self, other: &Text) -> bool {
        self.as_bytes() == other.as_bytes()
    }
}

impl Same for Name {
    fn same(&self, other: &Name) -> bool {
        self.as_bytes() == other.as_bytes()
    }
}

impl Same for Bytes {
    fn same(&self, other: &Bytes) -> bool {
        self.as_slice() == other.as_slice()
    }
}

impl<T: Same> Same for Option<T> {
    fn same(&self, other: &Option<T>) -> bool {
        match self {
            Some(it) => match other {
                Some(that) => it.same(that),
                None => false,
            },
            None => match other {
                Some(_) => false,
                None => true,
            },
        }
    }
}

impl<T: Same> Same for Boxed<T> {
    fn same(&self, other: &Boxed<T>) -> bool {
        self.as_ref().same(other.as_ref())
    }
}

impl<A: Same, B: Same> Same for (A, B) {
    fn same(&self, other: &(A, B)) -> bool {
        self.0.same(&other.0) && self.1.same(&other.1)
    }
}

fn same_all<T: Same>(these: &[T], those: &[T]) -> bool
    ensures { IsTrue result ↔ (these.now ≡ those.now) }
{
    match these {
        [] => those.is_empty(),
        [it, rest @ ..] => match those {
            [] => false,
            [that, others @ ..] => it.same(that) && same_all(rest, others),
        },
    }
}

impl<T: Same> Same for ListOf<T> {
    fn same(&self, other: &ListOf<T>) -> bool {
        same_all(self.as_slice(), other.as_slice())
    }
}
