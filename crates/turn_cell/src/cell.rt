ghost use Rattle.std.specs.Prelude.{◌≡◌, ◌≢◌, ℕ, ◌≤◌, ◌<◌, ◌+◌, ◌-◌, ◌^◌, false, true, IfOk, IfErr};
ghost use Rattle.history_spec.specs.Chapter.{GoesOn, added};
ghost use Rattle.history_spec.specs.Pass.{AreOf};
ghost use Rattle.turn_cell.specs.Known.{IsBegun, AreApart};
ghost use Rattle.turn_cell.specs.Passes.{IsFirst, Enters, left_by, SameShare, Closes, KeepsNothing, IsCutOff, joined, turns_of_all};

use crate::home::Home;
use crate::kept::Kept;
use crate::plays::{InTurns, Opening, ViewOf};
use crate::sleepers::{Sleepers, low_bits};
use crate::steps::{come_in, cut, draw, glue, pass_on, rest, wait_for, wake};
use crate::turn::{Pass, Turn};
use atomic_table::{Refused, Table};
use std::alloc::{AllocError, Global};
use std::marker::Model;
use std::snapshot::Snapshot;
use std::sync::Wait;

/// The first number that is no ticket.
const LAST: u64 = 1 << 62;

/// A value that is changed in turns. Contracts see which cell it is.
#[derive(Drop)]
pub struct TurnCell<T: Kept> {
    table: Table<Option<Home<T>>, ViewOf<T>, Opening<T>, InTurns<T>, Global>,
    sleepers: Sleepers,
}

impl<T: Kept> Model for TurnCell<T> {
    ghost use Rattle.std.specs.Prelude.{◌≡◌};
    ghost use Rattle.atomic_table.specs.Seated.{TableId, table_id_coded};

    ghost Value = { TableId };

    ghost coded = { table_id_coded };

    ghost view = { λ c. c.table.shared.table_id };

    ghost invariant = { λ c. (c.table.shared.table_id.words ≡ 3) × (c.table.shared.table_id.slots ≡ 1) };
}

/// There was no memory.
#[derive(Clone, Copy, Debug, PartialEq, Eq)]
pub struct NoMemory;

/// All tickets are used up: the word that gives them has reached this number, 2^62.
#[derive(Clone, Copy, Debug, PartialEq, Eq)]
pub struct Spent {
    pub ticket: u64,
}

impl<T: Kept + Drop> TurnCell<T> {
    /// A cell with this value, whose first turn has this ticket, and its first pass, of number 0.
    /// Where there is no memory the value comes back.
    pub fn new_at(
        alloc: Global,
        value: T,
        first_ticket: u64,
    ) -> Result<(TurnCell<T>, Pass<T>), (T, NoMemory)>
        requires ticket { first_ticket ≤ 2 ^ 62 }
        requires chapter { (T.meaning.history value).chapter ≤ first_ticket }
        requires marks { AreOf T.meaning.whose 0 (T.meaning.history value).marks }
        requires share { KeepsNothing T.meaning value }
        ensures cell { IfOk result (λ made. made.1.cell ≡ made.0) }
        ensures pass { IfOk result (λ made. IsFirst T.meaning value first_ticket made.1) }
        ensures err { IfErr result (λ e. e.0 ≡ value) }
    {
        let about = (Snapshot::of(&value), first_ticket);
        let marks = value.marks();
        let home = match Home::new(alloc, value) {
            Ok(home) => home,
            Err(value) => return Err((value, NoMemory)),
        };
        let mut slots = match Vec::with_capacity(alloc, 1) {
            Ok(slots) => slots,
            Err(AllocError) => return Err((home.into_inner(), NoMemory)),
        };
        slots.push_reserved(Some(home));
        match Table::new(alloc, &[first_ticket, first_ticket, marks], slots, &about) {
            Ok((table, seat)) => {
                let sleepers = Sleepers::new();
                let front = low_bits(marks);
                Ok((
                    TurnCell { table, sleepers },
                    Pass {
                        seat,
                        spent: false,
                        front,
                    },
                ))
            }
            Err(Refused { mut slots }) => {
                Err((slots.pop().flatten().unwrap().into_inner(), NoMemory))
            }
        }
    }

    /// Waits for the pass's turn, and takes the value. A pass is `Spent` where no ticket is left,
    /// and stays so. The ticket word has then reached the number in it. Where no other pass is left,
    /// all tickets from the first one on were drawn for this one's turns and those of the passes that
    /// were joined into it.
    pub fn enter<R: Wait>(&self, rt: &R, pass: Pass<T>) -> Result<Turn<T>, (Pass<T>, Spent)>
        requires own { pass.cell ≡ self.now }
        ensures turn { IfOk result (λ turn. Enters T.meaning pass turn) }
        ensures spent { IfErr result (λ e. e.0 ≡ record pass { spent = true }) }
        ensures ticket { IfErr result (λ e. e.1.ticket ≡ 2 ^ 62) }
        ensures used_up { IfErr result (λ _. pass.spent ≡ false → pass.parts ≡ 2 ^ 62 → 2 ^ 62 ≤ pass.first + turns_of_all pass) }
    {
        let Pass {
            mut seat,
            spent,
            front,
        } = pass;
        if spent {
            return Err((Pass { seat, spent, front }, Spent { ticket: LAST }));
        }
        come_in(rt, &self.table.shared, &self.sleepers);
        let ticket = draw(&self.table.shared, &mut seat);
        if ticket >= LAST {
            return Err((
                Pass {
                    seat,
                    spent: true,
                    front,
                },
                Spent { ticket: LAST },
            ));
        }
        let home = wait_for(rt, &self.table.shared, &self.sleepers, &mut seat, ticket);
        Ok(Turn { seat, home })
    }

    /// Ends the turn, and leaves what its value is now. Marks may have been added, or the next
    /// chapter begun, and nothing that another pass keeps there may have changed.
    pub fn leave(&self, turn: Turn<T>) -> Pass<T>
        requires own { turn.pass.cell ≡ self.now }
        requires goes_on { GoesOn (T.meaning.next_base turn.entry) (T.meaning.history turn.entry) (T.meaning.history turn.value) }
        requires marks { AreOf T.meaning.whose turn.pass.number (added (T.meaning.history turn.entry) (T.meaning.history turn.value)) }
        requires others { SameShare T.meaning turn.pass.number turn.entry turn.value }
        ensures { result ≡ left_by T.meaning turn }
    {
        let Turn { mut seat, home } = turn;
        let left = pass_on(&self.table.shared, &mut seat, home);
        wake(&self.table.shared, &self.sleepers, &left);
        Pass {
            seat,
            spent: false,
            front: left.front,
        }
    }

    /// Sleeps until a turn leaves a mark, for a tenth of a second at most. Where one was left since
    /// the pass's own last turn it returns at once. It teaches nothing.
    pub fn rest<R: Wait>(&self, rt: &R, pass: Pass<T>) -> Pass<T>
        requires { pass.cell ≡ self.now }
        ensures { result ≡ pass }
    {
        rest(rt, &self.table.shared, &self.sleepers, pass.front);
        pass
    }

    /// Cuts a part of the pass off, as a new pass that has seen as much and has another number.
    pub fn split(&self, pass: Pass<T>) -> (Pass<T>, Pass<T>)
        requires own { pass.cell ≡ self.now }
        requires parts { 1 < pass.parts }
        ensures kept { result.0 ≡ record pass { parts = pass.parts - 1 } }
        ensures new { IsCutOff T.meaning pass result.1 }
    {
        let Pass {
            mut seat,
            spent,
            front,
        } = pass;
        let part = cut(&self.table.shared, &mut seat);
        (
            Pass { seat, spent, front },
            Pass {
                seat: part,
                spent,
                front,
            },
        )
    }

    /// Puts two passes together, where the second keeps nothing in the value. The first goes on,
    /// with the parts of both and the longer history of the two. Of the second its number and marks
    /// are kept.
    pub fn join(&self, one: Pass<T>, other: Pass<T>) -> Pass<T>
        requires one { one.cell ≡ self.now }
        requires other { other.cell ≡ self.now }
        requires empty { other.share ≡ T.meaning.nothing }
        ensures both { result ≡ joined one other }
        ensures one_seen { IsBegun T.meaning one.seen result.seen }
        ensures other_seen { IsBegun T.meaning other.seen result.seen }
        ensures apart { AreApart result.number result.ended }
    {
        let Pass {
            mut seat,
            spent,
            front,
        } = one;
        let Pass {
            seat: part,
            spent: spent_too,
            front: _,
        } = other;
        glue(&self.table.shared, &mut seat, part);
        Pass {
            seat,
            spent: spent || spent_too,
            front,
        }
    }

    /// Takes the value back out, with the last pass.
    pub fn close(self, pass: Pass<T>) -> T
        requires own { pass.cell ≡ self }
        requires last { pass.parts ≡ 2 ^ 62 }
        ensures { Closes T.meaning pass result }
    {
        let TurnCell { table, sleepers: _ } = self;
        let Pass {
            seat,
            spent: _,
            front: _,
        } = pass;
        let mut closed = table.close_with(seat);
        let home = closed.take(0);
        closed.free();
        home.unwrap().into_inner()
    }
}
