// A worker's loop: a piece is taken, answered, and its message said.
ghost use Rattle.std.specs.Prelude.{◌≡◌, [], true};
ghost use Rattle.lane_workers.specs.Steps.{HasSaid, HasTried, Turns, stop_of};
ghost use Rattle.lane_workers.specs.Working.{HasWorked, MayWork};

use crate::answers::Answers;
use crate::worker::{Stop, Worked, Worker};
use packet::Sink;
use sink_turns::{Message, NotSaid, Out, flush_once, say_once};
use std::sync::Wait;
use turn_cell::TurnCell;

// Why a worker stops, by the answer to its message.
fn stop_of(said: Result<(), NotSaid>) -> Option<Stop>
    ensures { result ≡ stop_of said }
{
    match said {
        Ok(()) => None,
        Err(why) => Some(Stop::NotSaid(why)),
    }
}

// Says a message. It waits where the lane holds a piece more, since this worker will answer that and
// say more.
fn say<T: Drop, W: Drop, K: Sink + Drop, R: Wait>(
    rt: &R,
    out: &TurnCell<Out<K>>,
    worker: Worker<T, W, K>,
    message: &Message,
) -> (Worker<T, W, K>, Option<Stop>)
    requires cell { worker.pass.cell ≡ out.now }
    requires takes { worker.lane.takes ≡ true }
    ensures { HasSaid message.now result.1 worker result.0 }
{
    let Worker {
        mut lane,
        pass,
        row,
    } = worker;
    let more = !lane.is_empty();
    let (pass, said) = say_once(rt, out, pass, message, more);
    (Worker { lane, pass, row }, stop_of(said))
}

// Puts all that waits. Where that fails, so will the next message.
fn flush<T: Drop, W: Drop, K: Sink + Drop, R: Wait>(
    rt: &R,
    out: &TurnCell<Out<K>>,
    worker: Worker<T, W, K>,
) -> Worker<T, W, K>
    requires { worker.pass.cell ≡ out.now }
    ensures { Turns [] worker result }
{
    let Worker { lane, pass, row } = worker;
    let (pass, _) = flush_once(rt, out, pass);
    Worker { lane, pass, row }
}

// Puts all that waits, where the answer may take long.
fn flush_before<D: Answers, K: Sink + Drop, R: Wait>(
    rt: &R,
    service: &D,
    out: &TurnCell<Out<K>>,
    worker: Worker<D::Piece, D::Row, K>,
    piece: &D::Piece,
) -> Worker<D::Piece, D::Row, K>
    requires { worker.pass.cell ≡ out.now }
    ensures { Turns [] worker result }
{
    if service.may_take_long(piece) {
        flush(rt, out, worker)
    } else {
        worker
    }
}

// Answers a piece that was taken, and says the message.
fn answer<D: Answers, K: Sink + Drop, R: Wait>(
    rt: &R,
    service: &D,
    out: &TurnCell<Out<K>>,
    worker: Worker<D::Piece, D::Row, K>,
    piece: D::Piece,
) -> (Worker<D::Piece, D::Row, K>, Option<Stop>)
    requires { MayWork D.is_row service.now out.now worker }
    ensures tried { HasTried (D.has_answered service.now) piece result.1 worker result.0 }
    ensures may { MayWork D.is_row service.now out.now result.0 }
{
    let worker = flush_before(rt, service, out, worker, &piece);
    let Worker { lane, pass, row } = worker;
    let (row, message) = service.answer(rt, row, piece);
    let worker = Worker { lane, pass, row };
    match message {
        Some(message) => say(rt, out, worker, &message),
        None => (flush(rt, out, worker), Some(Stop::NoMemory)),
    }
}

/// Takes pieces and answers them, one after the other, until the lane is closed and empty. It waits
/// where the lane is empty. It stops before where a message was not said.
pub fn work<D: Answers, K: Sink + Drop, R: Wait>(
    rt: &R,
    service: &D,
    out: &TurnCell<Out<K>>,
    worker: Worker<D::Piece, D::Row, K>,
) -> Worked<D::Piece, D::Row, K>
    requires { MayWork D.is_row service.now out.now worker }
    ensures { HasWorked (D.has_answered service.now) (D.is_row service.now) worker result }
{
    let mut worker = worker;
    for _ in rt.forever() {
        let Some(piece) = worker.lane.next(rt) else {
            return Worked { worker, stop: None };
        };
        let (after, stop) = answer(rt, service, out, worker, piece);
        worker = after;
        if stop.is_some() {
            return Worked { worker, stop };
        }
    }
    unreachable!()
}
