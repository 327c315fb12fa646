ghost use Rattle.std.specs.Prelude.{◌≡◌};
ghost use Rattle.std.specs.Borrow.{Lends, sem};
ghost use Rattle.turn_cell.specs.contracts.turn.Turn.{the_row};
ghost use Rattle.turn_cell.specs.Lending.{turn_with};
ghost use Rattle.turn_cell.specs.Passes.{IsSettled};

use crate::home::Home;
use crate::kept::Kept;
use crate::steps::Place;
use std::marker::Model;

/// The right to take turns at one cell. Contracts see its number and what it knows of the
/// history. Where a pass is dropped, its parts of the right to close are lost.
#[derive(Drop)]
pub struct Pass<T: Kept> {
    pub(crate) seat: Place<T>,
    pub(crate) spent: bool,
    // The low bits of the front that it left, by which it sees whether a mark was left since.
    pub(crate) front: u32,
}

impl<T: Kept> Model for Pass<T> {
    ghost use Rattle.turn_cell.specs.Passes.{Passed, passed, IsIdle};
    ghost use Rattle.turn_cell.specs.Steps.{RestsIn};

    ghost Value = { Passed T.Base T.Mark T.Share };

    ghost view = { λ p. passed p.seat.table_id p.seat.me.0 };

    ghost invariant = { λ p. IsIdle p.seat.me p.spent × RestsIn T.meaning p.seat.me.0 };
}

impl<T: Kept> Pass<T> {
    /// What a pass knows between turns. It does nothing.
    pub fn knows(&self)
        ensures { IsSettled T.meaning self.now }
    {
        let _seat = &self.seat;
    }

    /// Whether no ticket was left when it last tried to take a turn. It stays so.
    pub fn is_spent(&self) -> bool
        ensures { result ≡ self.now.spent }
    {
        self.spent
    }
}

/// The value, while a pass has its turn. It has to end in `leave`.
pub struct Turn<T: Kept> {
    pub(crate) seat: Place<T>,
    pub(crate) home: Home<T>,
}

impl<T: Kept> Model for Turn<T> {
    ghost use Rattle.turn_cell.specs.Passes.{Turned, passed, ticket_of, found_or, IsTurn};

    ghost Value = { Turned T T.Base T.Mark T.Share };

    ghost view = { λ t. record { pass = passed t.seat.table_id t.seat.me.0; ticket = ticket_of t.seat.me.0.stage; entry = found_or t.home t.seat.me.0.stage; value = t.home } };

    ghost invariant = { λ t. IsTurn t.seat.me };
}

impl<T: Kept> Turn<T> {
    /// Lends the value. What is written there is what the turn leaves.
    pub fn value(&mut self) -> &mut T
        ensures* writes_back { sem 𝓛 (Lends (the_row T.row T.Base.row T.Mark.row T.Share.row T.Kept) T.row self.entry result (turn_with self.old)) }
        ensures value { result.now ≡ self.old.value }
    {
        self.home.get_mut()
    }
}
