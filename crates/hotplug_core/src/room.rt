// Room for a list with one more value, set aside before it is known whether the value comes.
ghost use Rattle.std.specs.Prelude.{◌≡◌, ◌<◌, ◌≤◌, IfOk, insert, length};

use core::mem;
use std::alloc::Global;
use std::marker::Model;
use virt_types::{ListOf, NoMemory};

/// Room for a list. Contracts see how many values fit.
#[derive(Drop)]
pub struct RoomFor<T> {
    entries: Vec<T>,
}

impl<T> Model for RoomFor<T> {
    ghost use Rattle.std.specs.Prelude.{◌≡◌, ℕ, [], vec_len};
    ghost use Rattle.std.specs.Vec.{vec_capacity};

    ghost Value = { ℕ };

    ghost view = { λ r. vec_capacity r.entries };

    ghost invariant = { λ r. (r.entries.items ≡ []) × (vec_len r.entries ≡ 0) };
}

// A list with one more value, moved over into this room, and nothing to tell of it.
fn inserted<T: Drop>(list: ListOf<T>, more: (RoomFor<T>, usize, T)) -> (ListOf<T>, ())
    requires { length list < more.0 }
    ensures { result.0 ≡ insert list more.1 more.2 }
{
    let (room, place, new) = more;
    let mut old = list.into_vec();
    let place = place.min(old.len());
    let mut entries = room.entries;
    match entries.append(&mut old) {
        Ok(()) => {}
        Err(_) => unreachable!(),
    }
    match entries.insert(place, new) {
        Ok(()) => {}
        Err(_) => unreachable!(),
    }
    (ListOf::of(entries), ())
}

impl<T: Drop> RoomFor<T> {
    /// Room for a list of so many values.
    pub fn new(alloc: Global, count: usize) -> Result<RoomFor<T>, NoMemory>
        ensures { IfOk result (λ room. count ≤ room) }
    {
        Ok(RoomFor {
            entries: Vec::with_capacity(alloc, count)?,
        })
    }

    /// Moves a list over into this room, with one more value at a place, or after the others where
    /// they are fewer.
    pub fn insert(self, list: &mut ListOf<T>, place: usize, new: T)
        requires { length list.old < self }
        ensures { list.new ≡ insert list.old place new }
    {
        mem::replace_with(list, (self, place, new), inserted)
    }
}
