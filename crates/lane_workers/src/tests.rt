ghost use Rattle.std.specs.Prelude.{◌≡◌, true};

use crate::{Answers, Stop, Worked, Worker, start, work};
use lanes::{Lane, ROOM};
use packet::memory::{Failing, MemorySink};
use packet::{Header, OK, REPLY};
use sink_turns::{Message, NotSaid, Out, Unsaid, close, open};
use std::alloc::Global;
use std::sync::Wait;
use std::test::Fail;
use std::thread;
use std::thread::{Scope, Threads};
use turn_cell::TurnCell;
use types_base::Bytes;
use work_threads::wait;

// Adds each amount to its row, and answers with the low byte of the total. There is no message for 0.
#[derive(Drop)]
struct Adder {
    alloc: Global,
}

fn reply(alloc: Global, total: u32) -> Option<Message> {
    let bytes = Bytes::copy_of(alloc, &[(total % 256) as u8]).ok()?;
    Some(Message {
        header: Header {
            prog: 1,
            vers: 1,
            procedure: 1,
            kind: REPLY,
            serial: total,
            status: OK,
        },
        bytes,
        place: None,
    })
}

impl Answers for Adder {
    ghost use Rattle.std.specs.Prelude.{◌≡◌, ◌+◌, ◌^◌, ◌%◌};

    type Piece = u32;

    type Row = u32;

    ghost is_row = { λ service row. Unit {0} };

    ghost has_answered = { λ service row amount message after. after ≡ (row + amount) % 2 ^ 32 };

    fn may_take_long(&self, piece: &u32) -> bool {
        *piece > 100
    }

    fn answer<R: Wait>(&self, rt: &R, row: u32, piece: u32) -> (u32, Option<Message>) {
        let total = row.wrapping_add(piece);
        if piece == 0 {
            return (total, None);
        }
        (total, reply(self.alloc, total))
    }
}

// Puts an amount, where there is room for it.
fn put_in<R: Wait>(rt: &R, puts: Lane<u32>, amount: u32) -> Lane<u32>
    requires { puts.puts ≡ true }
    ensures { result.puts ≡ true }
{
    let mut puts = puts;
    let _put = puts.put(rt, amount);
    puts
}

// Puts these amounts, as far as there is room for them.
fn put_all<R: Wait>(rt: &R, puts: Lane<u32>, amounts: &[u32]) -> Lane<u32>
    requires { puts.puts ≡ true }
    ensures { result.puts ≡ true }
{
    let mut puts = puts;
    for amount in amounts {
        puts = put_in(rt, puts, *amount);
    }
    puts
}

// A worker answers these amounts, and its lane is closed. What the sink holds then, what the row is,
// and why it stopped.
fn answer_all<R: Wait>(
    rt: &R,
    alloc: Global,
    sink: MemorySink,
    amounts: &[u32],
) -> Result<(MemorySink, u32, Option<Stop>), Fail> {
    let (puts, takes) = Lane::new(alloc, ROOM)?;
    let puts = put_all(rt, puts, amounts);
    puts.close();
    let Ok((cell, pass)) = open(alloc, sink) else {
        return Err("memory".into());
    };
    let worker = Worker {
        lane: takes,
        pass,
        row: 0,
    };
    let service = Adder { alloc };
    let Worked { worker, stop } = work(rt, &service, &cell, worker);
    let Worker { lane, pass, row } = worker;
    drop(lane);
    let (sink, _) = close(cell, pass);
    Ok((sink, row, stop))
}

#[test]
fn pieces_are_answered_in_order(rt: HostRuntime) -> Result<(), Fail> {
    let alloc = rt.alloc();
    let (sink, total, stop) = answer_all(&rt, alloc, MemorySink::new(alloc), &[1, 2, 200, 3])?;
    assert_eq!(rt; sink.bytes(), [1, 3, 203, 206].as_slice());
    assert_eq!(rt; total, 206);
    assert_eq!(rt; stop, None);
    Ok(())
}

#[test]
fn a_worker_stops_where_the_sink_fails(rt: HostRuntime) -> Result<(), Fail> {
    let alloc = rt.alloc();
    let sink = MemorySink::new(alloc).failing(Failing::From(1));
    let (sink, total, stop) = answer_all(&rt, alloc, sink, &[1, 2])?;
    assert!(rt; sink.bytes().is_empty());
    assert_eq!(rt; total, 3);
    assert_eq!(rt;
        stop,
        Some(Stop::NotSaid(NotSaid::Fault(Unsaid::SinkFault)))
    );
    Ok(())
}

#[test]
fn a_worker_stops_where_there_is_no_message(rt: HostRuntime) -> Result<(), Fail> {
    let alloc = rt.alloc();
    let (sink, total, stop) = answer_all(&rt, alloc, MemorySink::new(alloc), &[1, 0, 5])?;
    assert_eq!(rt; sink.bytes(), [1].as_slice());
    assert_eq!(rt; total, 1);
    assert_eq!(rt; stop, Some(Stop::NoMemory));
    Ok(())
}

#[test]
fn what_waits_is_put_before_an_answer_that_may_take_long(rt: HostRuntime) -> Result<(), Fail> {
    let alloc = rt.alloc();
    // The first piece that is put ends before that answer.
    let sink = MemorySink::new(alloc).failing(Failing::From(2));
    let (sink, total, _) = answer_all(&rt, alloc, sink, &[1, 2, 200])?;
    assert_eq!(rt; sink.bytes(), [1, 3].as_slice());
    assert_eq!(rt; total, 203);
    Ok(())
}

// Puts an amount, starts a worker, puts two more and closes the lane. What the row is then, why it
// stopped, and whether it had a thread.
fn add_three<'s, E, R: Threads + Wait + Sync + 's>(
    scope: &Scope<'s, E>,
    rt: &'s R,
    service: &'s Adder,
    cell: &'s TurnCell<Out<MemorySink>>,
    worker: Worker<u32, u32, MemorySink>,
    puts: Lane<u32>,
) -> (u32, Option<Stop>, bool)
    requires puts { puts.puts ≡ true }
    requires takes { worker.lane.takes ≡ true }
    requires own { worker.pass.cell ≡ cell.now }
{
    let puts = put_in(rt, puts, 1);
    let started = start(scope, rt, service, cell, worker, &puts);
    let is_running = started.is_running();
    let puts = put_in(rt, puts, 2);
    let puts = put_in(rt, puts, 3);
    puts.close();
    let worked = wait(rt, started);
    (worked.worker.row, worked.stop, is_running)
}

// Whether threads are refused here depends on the limits of the process.
#[test]
fn a_worker_in_a_thread_answers_what_is_put(rt: HostRuntime) -> Result<(), Fail> {
    let alloc = rt.alloc();
    let (puts, lane) = Lane::new(alloc, ROOM)?;
    let Ok((cell, pass)) = open(alloc, MemorySink::new(alloc)) else {
        return Err("memory".into());
    };
    let service = Adder { alloc };
    let worker = Worker { lane, pass, row: 0 };
    let (total, stop, is_running) = thread::scope(
        thread::scope_env(),
        &rt,
        |scope| -> (u32, Option<Stop>, bool)
            requires { (puts.puts ≡ true) × (worker.lane.takes ≡ true) × (worker.pass.cell ≡ cell) }
        { add_three(scope, &rt, &service, &cell, worker, puts) },
    );
    // Without a thread it answers what was put before, and ends.
    assert_eq!(rt; total, if is_running { 6 } else { 1 });
    assert_eq!(rt; stop, None);
    Ok(())
}
