ghost use Rattle.std.specs.Prelude.{◌≡◌};

use std::alloc::Global;
use std::io;
use std::rt::Clock;
use std::sync::Wait;
use std::thread::Threads;
use std::time::Instant;
use turn_cell::TurnCell;
use turn_examples::{Counter, CounterPass, add_by_many, add_many};

/// Counts in turns, in so many threads.
pub fn count<R: Threads + Wait + Sync>(
    rt: &R,
    alloc: Global,
    threads: u64,
    each: u64,
) -> Option<()> {
    let Ok((cell, pass)) = TurnCell::new_at(alloc, Counter::new(alloc), 0) else {
        return None;
    };
    if threads == 1 {
        return add_many(rt, &cell, pass, 1, each).ok().map(|_| ());
    }
    if threads > 1000 {
        return None;
    }
    add_by_many(rt, alloc, &cell, pass, threads, each).map(|_| ())
}

/// Counts in turns, ten times as many, and prints how long each tenth took.
pub fn grow<R: Wait + Clock + Print>(rt: &R, alloc: Global, each: u64) -> io::Result<Option<()>> {
    let Ok((cell, pass)) = TurnCell::new_at(alloc, Counter::new(alloc), 0) else {
        return Ok(None);
    };
    tenths(rt, &cell, pass, each)
}

fn tenths<R: Wait + Clock + Print>(
    rt: &R,
    cell: &TurnCell<Counter>,
    pass: CounterPass,
    each: u64,
) -> io::Result<Option<()>>
    requires { pass.cell ≡ cell.now }
{
    let mut pass = pass;
    for _ in 0..10 {
        let start = Instant::now(rt)?;
        pass = match add_many(rt, cell, pass, 1, each) {
            Ok(pass) => pass,
            Err(_) => return Ok(None),
        };
        let nanos = start.elapsed(rt)?.as_nanos();
        println!(rt; "{nanos}")?;
    }
    Ok(Some(()))
}
