// A worker in a thread of its own.
ghost use Rattle.lane_workers.specs.Working.{HasWorked, MayWork};
ghost use Rattle.work_threads.specs.Posting.{IsPosted};

use crate::answers::Answers;
use crate::worker::{Worked, Worker};
use lanes::Lane;
use packet::Sink;
use sink_turns::Out;
use std::sync::Wait;
use std::thread::{Scope, Threads};
use turn_cell::TurnCell;
use work_threads::{Posted, post};

/// A worker that was started, to be waited for by `work_threads::wait`.
pub type Started<D, K> = Posted<
    D,
    TurnCell<Out<K>>,
    Worker<<D as Answers>::Piece, <D as Answers>::Row, K>,
    Worked<<D as Answers>::Piece, <D as Answers>::Row, K>,
>;

/// Starts a worker in a thread of the scope. Where no thread can be started the lane is closed, by
/// the end that puts, and the worker is done at once: it answers what is held, and nothing more comes.
pub fn start<'s, E, R, D, K>(
    scope: &Scope<'s, E>,
    rt: &'s R,
    service: &'s D,
    out: &'s TurnCell<Out<K>>,
    worker: Worker<D::Piece, D::Row, K>,
    puts: &Lane<D::Piece>,
) -> Started<D, K>
where
    R: Threads + Wait + Sync + 's,
    D: Answers + Sync + 's,
    D::Piece: Send + 's,
    D::Row: Send + 's,
    K: Sink + Drop + Send + 's,
    requires { MayWork D.is_row service.now out.now worker }
    ensures { IsPosted (λ d own. HasWorked (D.has_answered d) (D.is_row d)) service.now out.now worker result }
{
    post(scope, rt, service, out, worker, || puts.close())
}
