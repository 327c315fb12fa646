// The passes of a row for things that are in slots, one for each.
ghost use Rattle.std.specs.Prelude.{◌≡◌, ◌<◌, ◌++◌, ◌∷◌, length, IsTrue, ◌↔◌};
ghost use Rattle.std.specs.List.{All};
ghost use Rattle.pass_rows.specs.Resting.{IsIdle, IsSo};

use crate::resting::{PassState, RestingPass};
use std::marker::Model;
use turn_cell::{Kept, Pass};

/// The passes for what is in slots, in the order of the slots. Contracts see them as a list.
#[derive(Drop)]
pub struct Passes<T: Kept> {
    pub(crate) all: Vec<RestingPass<T>>,
}

impl<T: Kept> Model for Passes<T> {
    ghost use Rattle.std.specs.Prelude.{List};
    ghost use Rattle.turn_cell.specs.Passes.{Passed};

    ghost Value = { List (Passed T.Base T.Mark T.Share) };

    ghost view = { λ p. p.all.items };
}

/// The same, while the pass of one slot is out. Contracts see the passes before that slot, and those after it.
pub struct OtherPasses<T: Kept> {
    all: Vec<RestingPass<T>>,
    slot: u32,
}

impl<T: Kept> Model for OtherPasses<T> {
    ghost use Rattle.std.specs.Prelude.{◌≤◌, ◌<◌, length};
    ghost use Rattle.std.specs.Vec.{vec_capacity};
    ghost use Rattle.turn_cell.specs.Passes.{Passed};
    ghost use Rattle.pass_rows.specs.Others.{Others, others_of};

    ghost Value = { Others (Passed T.Base T.Mark T.Share) };

    ghost view = { λ o. others_of o.slot o.all.items };

    ghost invariant = { λ o. (o.slot ≤ length o.all.items) × (length o.all.items < vec_capacity o.all) };
}

impl<T: Kept> Passes<T> {
    /// These passes.
    pub fn of(all: Vec<RestingPass<T>>) -> Passes<T>
        ensures { result ≡ all.items }
    {
        Passes { all }
    }

    /// The passes.
    pub fn into_vec(self) -> Vec<RestingPass<T>>
        ensures { result.items ≡ self }
    {
        let Passes { all } = self;
        all
    }

    /// How many there are.
    pub fn len(&self) -> usize
        ensures { result ≡ length self.now }
    {
        self.all.len()
    }

    /// Whether each has tickets left, and no cell keeps anything for it.
    pub fn are_idle(&self) -> bool
        ensures { IsTrue result ↔ All (IsIdle T.meaning) self.now }
    {
        for pass in self.all.as_slice() {
            if !pass.is_idle() {
                return false;
            }
        }
        true
    }

    /// Takes the pass of this slot out.
    pub fn take(self, slot: u32) -> (Pass<T>, OtherPasses<T>)
        requires { slot < length self }
        ensures all { self ≡ result.1.before ++ result.0 ∷ result.1.after }
        ensures slot { length result.1.before ≡ slot }
    {
        let Passes { mut all } = self;
        let pass = all.swap_remove(slot as usize);
        (pass.into_pass(), OtherPasses { all, slot })
    }
}

impl<T: Kept> OtherPasses<T> {
    /// Puts a pass in the place of the one that is out. This is known of it.
    pub fn put(self, pass: Pass<T>, state: PassState) -> Passes<T>
        requires { IsSo T.meaning state pass }
        ensures { result ≡ self.before ++ pass ∷ self.after }
    {
        let OtherPasses { mut all, slot } = self;
        let last = all.len();
        all.push_reserved(RestingPass::new(pass, state));
        all.swap(slot as usize, last);
        Passes { all }
    }
}
