ghost use Rattle.std.specs.Borrow.{ftrue};
ghost use Rattle.std.specs.Prelude.{◌≡◌, ℕ, List, ◌∷◌};
ghost use Rattle.history_spec.specs.Tally.{one_fewer};

use std::marker::{Model, PhantomData};

/// The numbers of passes that hold something at one place, each as often as it does. Contracts
/// alone see them, and they take no bytes. Whoever adds or takes one away says which, as at a
/// stamp.
#[derive(Drop)]
pub struct Tally {
    of: PhantomData<u64>,
    pub ghost numbers: { List ℕ },
}

impl Model for Tally {
    ghost also_owns = { λ _. ftrue };
}

// It owns nothing.
unsafe impl Send for Tally {}

unsafe impl Sync for Tally {}

impl Tally {
    /// The tally of the numbers that the caller names.
    pub fn named() -> Tally
        ghost numbers: { List ℕ }
        ensures { result.numbers ≡ numbers }
    {
        Tally { of: PhantomData }
    }

    /// The same numbers, and one more.
    pub fn with(&self) -> Tally
        ghost number: { ℕ }
        ensures { result.numbers ≡ number ∷ self.now.numbers }
    {
        after(self)
    }

    /// The same numbers, and this one once less where it is there.
    pub fn without(&self) -> Tally
        ghost number: { ℕ }
        ensures { result.numbers ≡ one_fewer number self.now.numbers }
    {
        after(self)
    }
}

// The numbers are named in two steps, since a pick sees the callee's arguments alone.
fn after(_old: &Tally) -> Tally
    ghost numbers: { List ℕ }
    ensures { result.numbers ≡ numbers }
{
    Tally::named()
}
