//! Counts in turns of a turn cell, or under a mutex, and prints how long it took. The script
//! `bench/turns` runs it.
//!
//!     turn_bench turns THREADS EACH    so many threads take so many turns each
//!     turn_bench mutex THREADS EACH    the same under a mutex
//!     turn_bench rest PASSES TIMES     so many passes rest so often
//!     turn_bench small TIMES           turns at a value of 8 bytes
//!     turn_bench large TIMES           the same at one of 2,048
//!     turn_bench growth EACH           ten runs of turns, one after the other
#![tactic(auto)]

mod locked;
mod resting;
mod sized;
mod turns;

use std::time::Instant;
use std::{env, io};

fn main(rt: HostRuntime) -> io::Result<()> {
    let mut args = env::args(&rt)?;
    let _program = args.next();
    let kind = args.next();
    let first = args.next().and_then(|arg| arg.as_str().parse::<u64>().ok());
    let second = args.next().and_then(|arg| arg.as_str().parse::<u64>().ok());
    let Some(kind) = kind else {
        let turns = turns::count(&rt, rt.alloc(), 2, 10).is_some();
        let locked = locked::count(&rt, rt.alloc(), 2, 10).is_some();
        println!(rt; "turns {turns}, mutex {locked}")?;
        return Ok(());
    };
    let count = first.unwrap_or(1);
    let each = second.unwrap_or(10);
    let start = Instant::now(&rt)?;
    let done = match kind.as_str() {
        "turns" => turns::count(&rt, rt.alloc(), count, each),
        "mutex" => locked::count(&rt, rt.alloc(), count, each),
        "rest" => resting::rest(&rt, rt.alloc(), count, each),
        "small" => sized::turns_at_small(&rt, rt.alloc(), count),
        "large" => sized::turns_at_large(&rt, rt.alloc(), count),
        _ => turns::grow(&rt, rt.alloc(), count)?,
    };
    let nanos = start.elapsed(&rt)?.as_nanos();
    let ok = done.is_some();
    println!(rt; "{kind} {count} {each} {nanos} {ok}")
}
