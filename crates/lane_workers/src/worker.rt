ghost use denote.Param.Send.{IsSync};

use crate::answers::Answers;
use crate::working::work;
use lanes::Lane;
use packet::Sink;
use sink_turns::{NotSaid, Out, OutPass};
use std::sync::Wait;
use std::thread::Threads;
use turn_cell::TurnCell;
use work_threads::Job;

/// A worker: the end of its lane that takes, its pass at the sink, and its row.
#[derive(Drop)]
pub struct Worker<T: Drop, W: Drop, K: Sink + Drop> {
    pub lane: Lane<T>,
    pub pass: OutPass<K>,
    pub row: W,
}

/// Why a worker stopped before its lane was closed and empty.
#[derive(Clone, Copy, Debug, PartialEq, Eq, Drop)]
pub enum Stop {
    /// There was no memory for a message.
    NoMemory,
    /// A message was not said, or not put whole.
    NotSaid(NotSaid),
}

/// A worker that has ended.
#[derive(Drop)]
pub struct Worked<T: Drop, W: Drop, K: Sink + Drop> {
    pub worker: Worker<T, W, K>,
    pub stop: Option<Stop>,
}

impl<D: Answers, K: Sink + Drop> Job<D, TurnCell<Out<K>>, Worked<D::Piece, D::Row, K>>
    for Worker<D::Piece, D::Row, K> {
    ghost use Rattle.lane_workers.specs.Working.{HasWorked, MayWork};

    ghost may_do = { MayWork D.is_row };

    ghost has_done = { λ d out. HasWorked (D.has_answered d) (D.is_row d) };

    /// Works until the lane is closed and empty.
    fn done<R: Threads + Wait + Sync>(
        self,
        rt: &R,
        shared: &D,
        own: &TurnCell<Out<K>>,
    ) -> Worked<D::Piece, D::Row, K> {
        work(rt, shared, own, self)
    }
}
