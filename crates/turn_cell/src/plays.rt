//! The rule of the table, and what a seat learns in each step.
use crate::home::Home;
use crate::kept::Kept;
use crate::view::View;
use atomic_table::{Join, Play, Split, TableRule};
use std::marker::PhantomData;
use std::snapshot::Snapshot;

pub(crate) type ViewOf<T> = View<T, <T as Kept>::Base, <T as Kept>::Mark, <T as Kept>::Share>;

/// What the cell was made with: the value, and the ticket of the first turn.
pub(crate) type Opening<T> = (Snapshot<T>, u64);

pub struct InTurns<T> {
    of: PhantomData<T>,
}

impl<T: Kept> TableRule<Option<Home<T>>, ViewOf<T>, Opening<T>> for InTurns<T> {
    ghost use Rattle.turn_cell.specs.Rule.{IsRuled, newcomer};

    ghost holds = { λ _. IsRuled T.meaning };

    ghost first = { λ key. newcomer T.meaning key.0.value key.1 };
}

/// Drawing a ticket.
pub(crate) struct Draw;

impl<T, B, M, S> Play<Option<Home<T>>, View<T, B, M, S>> for Draw {
    ghost use Rattle.turn_cell.specs.Steps.{draws};

    ghost then = { draws };
}

/// Looking whether a ticket is served.
pub(crate) struct Look<T> {
    of: PhantomData<T>,
}

impl<T: Kept> Play<Option<Home<T>>, ViewOf<T>> for Look<T> {
    ghost use Rattle.turn_cell.specs.Steps.{looks};

    ghost then = { looks T.meaning };
}

/// Publishing what a turn leaves.
pub(crate) struct Publish<T> {
    of: PhantomData<T>,
}

impl<T: Kept> Play<Option<Home<T>>, ViewOf<T>> for Publish<T> {
    ghost use Rattle.turn_cell.specs.Steps.{publishes};

    ghost then = { publishes T.meaning };
}

/// Passing the turn on.
pub(crate) struct PassOn<T> {
    of: PhantomData<T>,
}

impl<T: Kept> Play<Option<Home<T>>, ViewOf<T>> for PassOn<T> {
    ghost use Rattle.turn_cell.specs.Steps.{passes_on};

    ghost then = { passes_on T.meaning };
}

/// Cutting one part off a pass.
pub(crate) struct Cut<T> {
    of: PhantomData<T>,
}

impl<T: Kept> Split<ViewOf<T>> for Cut<T> {
    ghost use Rattle.turn_cell.specs.Steps.{one_fewer, one_part};

    ghost left = { one_fewer };

    ghost right = { one_part T.meaning.nothing };
}

/// Taking a number, of a pass that was cut off.
pub(crate) struct Name<T> {
    of: PhantomData<T>,
}

impl<T: Kept> Play<Option<Home<T>>, ViewOf<T>> for Name<T> {
    ghost use Rattle.turn_cell.specs.Steps.{is_named};

    ghost then = { is_named T.meaning };
}

/// Putting two passes together.
pub(crate) struct Glue<T> {
    of: PhantomData<T>,
}

impl<T: Kept> Join<ViewOf<T>> for Glue<T> {
    ghost use Rattle.turn_cell.specs.Steps.{together, used_up};

    ghost both = { together };

    ghost spent = { used_up T.meaning };
}

/// Learning what a pass has in common with the one that was joined into it.
pub(crate) struct Meet<T> {
    of: PhantomData<T>,
}

impl<T: Kept> Play<Option<Home<T>>, ViewOf<T>> for Meet<T> {
    ghost use Rattle.turn_cell.specs.Steps.{meets};

    ghost then = { meets T.meaning };
}
