// Lists of rows.
ghost use Rattle.std.specs.Prelude.{◌≡◌, ◌++◌, ◌∷◌, ◌+◌, ◌<◌, ◌≤◌, IfOk, IsTrue, ◌↔◌, IfNone, [], length};
ghost use Rattle.std.specs.Option.{option_to_list};
ghost use Rattle.std.specs.List.{All};
ghost use Rattle.pass_rows.specs.Rows.{IsIdleRow};

use crate::row::RowOf;
use std::alloc::Global;
use std::marker::Model;
use turn_cell::Kept;
use types_base::NoMemory;

/// Rows in order, with room for more. Contracts see the rows and how many more fit.
#[derive(Drop)]
pub struct RowListOf<L: Kept, S: Kept, D: Kept, G> {
    pub(crate) rows: Vec<RowOf<L, S, D, G>>,
}

impl<L: Kept, S: Kept, D: Kept, G> Model for RowListOf<L, S, D, G> {
    ghost use Rattle.std.specs.Prelude.{length, ◌-◌};
    ghost use Rattle.std.specs.Vec.{vec_capacity};
    ghost use Rattle.types_base.specs.Room.{Roomy};
    ghost use Rattle.pass_rows.specs.Rows.{PassRow};

    ghost Value = { Roomy (PassRow L.Base L.Mark L.Share S.Base S.Mark S.Share D.Base D.Mark D.Share G) };

    ghost view = { λ l. record { list = l.rows.items; room = vec_capacity l.rows - length l.rows.items } };
}

impl<L: Kept, S: Kept, D: Kept, G> RowListOf<L, S, D, G> {
    /// An empty list with room for at least this many.
    pub fn with_room(alloc: Global, room: u32) -> Result<RowListOf<L, S, D, G>, NoMemory>
        ensures list { IfOk result (λ rows. rows.list ≡ []) }
        ensures room { IfOk result (λ rows. room ≤ rows.room) }
    {
        match Vec::with_capacity(alloc, room as usize) {
            Ok(rows) => Ok(RowListOf { rows }),
            Err(_) => Err(NoMemory),
        }
    }

    /// How many rows there are.
    pub fn len(&self) -> usize
        ensures { result ≡ length self.now.list }
    {
        self.rows.len()
    }

    /// Takes the last row out. None exactly where there is none.
    pub fn pop(&mut self) -> Option<RowOf<L, S, D, G>>
        ensures list { self.old.list ≡ self.new.list ++ option_to_list result }
        ensures room { self.new.room ≡ self.old.room + length (option_to_list result) }
        ensures none { IfNone result (self.old.list ≡ []) }
    {
        self.rows.pop()
    }

    /// Puts a row after the others, into room that is there.
    pub fn push(&mut self, row: RowOf<L, S, D, G>)
        requires { 0 < self.old.room }
        ensures list { self.new.list ≡ self.old.list ++ row ∷ [] }
        ensures room { self.new.room + 1 ≡ self.old.room }
    {
        self.rows.push_reserved(row);
    }

    /// Whether each pass of each row has tickets left, and no cell keeps anything for it.
    pub fn is_idle(&self) -> bool
        ensures { IsTrue result ↔ All (IsIdleRow L.meaning S.meaning D.meaning) self.now.list }
    {
        for row in self.rows.as_slice() {
            if !row.is_idle() {
                return false;
            }
        }
        true
    }
}
