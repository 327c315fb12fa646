// A list with room that was set aside, so that a later turn can add to it without taking memory.
ghost use Rattle.std.specs.Prelude.{◌≡◌, ◌++◌, ◌∷◌, ◌+◌, ◌<◌, ◌≤◌, [], IfOk, OnOk, length};

use crate::list::ListOf;
use crate::memory::NoMemory;
use std::alloc::Global;
use std::marker::Model;

/// Values in order, with room for more. Contracts see the list and how many more fit.
#[derive(Drop)]
pub struct RoomyList<T> {
    entries: Vec<T>,
}

impl<T> Model for RoomyList<T> {
    ghost use Rattle.std.specs.Prelude.{length, ◌-◌};
    ghost use Rattle.std.specs.Vec.{vec_capacity};
    ghost use Rattle.types_base.specs.Room.{Roomy};

    ghost Value = { Roomy T };

    ghost view = { λ l. record { list = l.entries.items; room = vec_capacity l.entries - length l.entries.items } };
}

impl<T> RoomyList<T> {
    /// An empty list with room for at least this many.
    pub fn with_room(alloc: Global, room: usize) -> Result<RoomyList<T>, NoMemory>
        ensures list { IfOk result (λ l. l.list ≡ []) }
        ensures room { IfOk result (λ l. room ≤ l.room) }
    {
        Ok(RoomyList {
            entries: Vec::with_capacity(alloc, room)?,
        })
    }

    /// Makes room for at least this many more. Where there is no memory the list and its room stay.
    pub fn reserve(&mut self, room: usize) -> Result<(), NoMemory>
        ensures list { self.new.list ≡ self.old.list }
        ensures room { OnOk result (room ≤ self.new.room) }
        ensures stays { self.old.room ≤ self.new.room }
    {
        Ok(self.entries.reserve(room)?)
    }

    /// Puts a value after the others, into room that is there.
    pub fn push(&mut self, entry: T)
        requires { 0 < self.old.room }
        ensures list { self.new.list ≡ self.old.list ++ entry ∷ [] }
        ensures room { self.new.room + 1 ≡ self.old.room }
    {
        self.entries.push_reserved(entry);
    }

    /// The values.
    pub fn as_slice(&self) -> &[T]
        ensures { result.now ≡ self.now.list }
    {
        self.entries.as_slice()
    }

    /// The list without its room.
    pub fn into_list(self) -> ListOf<T>
        ensures { result ≡ self.list }
    {
        ListOf::of(self.entries)
    }
}
