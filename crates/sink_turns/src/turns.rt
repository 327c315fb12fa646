ghost use Rattle.std.specs.Prelude.{◌≡◌, ℕ, IfErr, IfOk};
ghost use Rattle.turn_cell.specs.Passes.{IsFirst};
ghost use Rattle.turn_cell.specs.Turning.{SamePass};
ghost use Rattle.sink_turns.specs.Keeping.{meaning};
ghost use Rattle.sink_turns.specs.Saying.{Flushes, Says, opened};
ghost use Rattle.sink_turns.specs.Told.{IsFlushed, IsSaid};

use crate::message::Message;
use crate::spoken::{Out, Unsaid};
use packet::Sink;
use std::alloc::Global;
use std::sync::Wait;
use turn_cell::{Pass, Turn, TurnCell};
use types_base::NoMemory;

/// The right to say messages at a sink.
pub type OutPass<K> = Pass<Out<K>>;

type OutTurn<K> = Turn<Out<K>>;

/// Why a pass said no message, or none that was put whole.
#[derive(Clone, Copy, Debug, PartialEq, Eq, Drop)]
pub enum NotSaid {
    /// No ticket is left.
    Spent,
    Fault(Unsaid),
}

/// A cell with this sink, and its first pass. Where there is no memory the sink comes back.
pub fn open<K: Sink + Drop>(
    alloc: Global,
    sink: K,
) -> Result<(TurnCell<Out<K>>, OutPass<K>), (K, NoMemory)>
    ensures cell { IfOk result (λ made. made.1.cell ≡ made.0) }
    ensures pass { IfOk result (λ made. IsFirst meaning (opened (K.held sink) (K.faults sink)) 0 made.1) }
    ensures held { IfErr result (λ e. K.held e.0 ≡ K.held sink) }
    ensures faults { IfErr result (λ e. K.faults e.0 ≡ K.faults sink) }
{
    let out = Out::new(alloc, sink)?;
    match TurnCell::new_at(alloc, out, 0) {
        Ok(made) => Ok(made),
        Err((out, _)) => Err((out.into_sink(), NoMemory)),
    }
}

// In the turn of the pass of this number.
fn say_as<K: Sink + Drop>(
    turn: &mut OutTurn<K>,
    message: &Message,
    more: bool,
) -> Result<(), Unsaid>
    ghost number: { ℕ }
    ensures said { Says number message.now more result turn.old.value turn.new.value }
    ensures same { turn.new ≡ record turn.old { value = turn.new.value } }
{
    turn.value().say(message, more)
}

fn say_in<K: Sink + Drop>(
    turn: &mut OutTurn<K>,
    message: &Message,
    more: bool,
) -> Result<(), Unsaid>
    ensures said { Says turn.old.pass.number message.now more result turn.old.value turn.new.value }
    ensures same { turn.new ≡ record turn.old { value = turn.new.value } }
{
    say_as(turn, message, more)
}

// In the turn of the pass of this number.
fn flush_as<K: Sink + Drop>(turn: &mut OutTurn<K>) -> Result<(), Unsaid>
    ghost number: { ℕ }
    ensures flushed { Flushes number result turn.old.value turn.new.value }
    ensures same { turn.new ≡ record turn.old { value = turn.new.value } }
{
    turn.value().flush()
}

fn flush_in<K: Sink + Drop>(turn: &mut OutTurn<K>) -> Result<(), Unsaid>
    ensures flushed { Flushes turn.old.pass.number result turn.old.value turn.new.value }
    ensures same { turn.new ≡ record turn.old { value = turn.new.value } }
{
    flush_as(turn)
}

/// Takes a turn and says a message. With `more` its sender has more to say: the message waits, where
/// there is room, until someone puts all that waits. Else it is put at once, and all that waits
/// before it, in one piece. After a fault of the sink nothing more is put.
pub fn say_once<K: Sink + Drop, R: Wait>(
    rt: &R,
    cell: &TurnCell<Out<K>>,
    pass: OutPass<K>,
    message: &Message,
    more: bool,
) -> (OutPass<K>, Result<(), NotSaid>)
    requires { pass.cell ≡ cell.now }
    ensures said { IsSaid message.now more result.1 pass result.0 }
    ensures same { SamePass pass result.0 }
{
    let mut turn = match cell.enter(rt, pass) {
        Ok(turn) => turn,
        Err((pass, _)) => return (pass, Err(NotSaid::Spent)),
    };
    let said = say_in(&mut turn, message, more);
    let pass = cell.leave(turn);
    match said {
        Ok(()) => (pass, Ok(())),
        Err(why) => (pass, Err(NotSaid::Fault(why))),
    }
}

/// Takes a turn and puts all that waits.
pub fn flush_once<K: Sink + Drop, R: Wait>(
    rt: &R,
    cell: &TurnCell<Out<K>>,
    pass: OutPass<K>,
) -> (OutPass<K>, Result<(), NotSaid>)
    requires { pass.cell ≡ cell.now }
    ensures flushed { IsFlushed result.1 pass result.0 }
    ensures same { SamePass pass result.0 }
{
    let mut turn = match cell.enter(rt, pass) {
        Ok(turn) => turn,
        Err((pass, _)) => return (pass, Err(NotSaid::Spent)),
    };
    let flushed = flush_in(&mut turn);
    let pass = cell.leave(turn);
    match flushed {
        Ok(()) => (pass, Ok(())),
        Err(why) => (pass, Err(NotSaid::Fault(why))),
    }
}
