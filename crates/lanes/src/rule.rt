// The rule of a lane's queue, and what each step on it adds to what an end knows.
use crossbeam_queue::RuledArrayQueue;
use crossbeam_queue::protocol::{Join, Lesson, Outcome, Protocol, Split};
use std::alloc::Global;
use std::collections::LinkedList;

/// What an end may do, all that was put, where it may put, and all that was taken, where it may
/// take. No value of it is made.
pub struct Knows<T> {
    pub puts: bool,
    pub takes: bool,
    pub put: LinkedList<T>,
    pub taken: LinkedList<T>,
}

/// What was put is what was taken and then what is held.
pub struct InOrder;

impl<T> Protocol<T, Knows<T>> for InOrder {
    ghost use Rattle.lanes.specs.Rule.{IsInOrder, newcomer};

    ghost holds = { IsInOrder };

    ghost first = { newcomer };
}

/// One end that may do both becomes two, and two become one again.
pub(crate) struct Ends;

impl<T> Split<Knows<T>> for Ends {
    ghost use Rattle.lanes.specs.Rule.{put_half, take_half};

    ghost left = { put_half };

    ghost right = { take_half };
}

impl<T> Join<Knows<T>> for Ends {
    ghost use Rattle.lanes.specs.Rule.{both_halves, used_up};

    ghost both = { both_halves };

    ghost spent = { used_up };
}

pub(crate) struct Puts;

impl<T> Outcome<T, Knows<T>> for Puts {
    ghost use Rattle.std.specs.Prelude.{◌≡◌};
    ghost use Rattle.lanes.specs.Rule.{has_put};

    ghost then = { λ v x w. w ≡ has_put v x };
}

impl<T> Lesson<T, Knows<T>> for Puts {
    ghost use Rattle.lanes.specs.Rule.{Sees};

    ghost fact = { Sees };
}

pub(crate) struct Takes;

impl<T> Outcome<T, Knows<T>> for Takes {
    ghost use Rattle.std.specs.Prelude.{◌≡◌};
    ghost use Rattle.lanes.specs.Rule.{has_taken};

    ghost then = { λ v x w. w ≡ has_taken v x };
}

impl<T> Lesson<T, Knows<T>> for Takes {
    ghost use Rattle.lanes.specs.Rule.{Sees};

    ghost fact = { Sees };
}

pub(crate) type Line<T> = RuledArrayQueue<T, Knows<T>, InOrder, Global>;
