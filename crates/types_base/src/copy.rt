// Copies of values that hold collections, each equal to the value that it was made of.
ghost use Rattle.std.specs.Prelude.{◌≡◌, ◌&&◌, IfOk, Ok, is_ok};

use crate::memory::NoMemory;

/// A value that another can be made equal to. `Clone` of std says less of what it makes.
pub trait TryCopy {
    /// A value equal to this one.
    fn copy(&self) -> Result<Self, NoMemory>
    where
        Self: Sized,
        ensures { IfOk result (λ it. it ≡ self.now) };
}

impl TryCopy for u32 {
    fn copy(&self) -> Result<u32, NoMemory> {
        Ok(*self)
    }
}

impl<T: TryCopy> TryCopy for Option<T> {
    fn copy(&self) -> Result<Option<T>, NoMemory> {
        match self {
            Some(it) => Ok(Some(it.copy()?)),
            None => Ok(None),
        }
    }
}

/// Both of two results, where both are there. A value of many large parts is put together by it: a
/// `?` after each part would have the parts before it dropped in as many ways as there are parts.
pub fn both<A: Drop, B: Drop>(
    one: Result<A, NoMemory>,
    other: Result<B, NoMemory>,
) -> Result<(A, B), NoMemory>
    ensures values { IfOk result (λ pair. (one ≡ Ok pair.0) × (other ≡ Ok pair.1)) }
    ensures both { is_ok result ≡ (is_ok one && is_ok other) }
{
    match (one, other) {
        (Ok(one), Ok(other)) => Ok((one, other)),
        _ => Err(NoMemory),
    }
}
