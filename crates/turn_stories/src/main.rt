//! Threads that take turns at one cell, whose value is a counter. Each line says what came about, and whether it is what is to be.
#![tactic(auto)]

mod counting;
mod last;
mod resting;

use std::io;

// Whether it came about; no, where there were no tickets or no memory.
fn print<R: Print>(rt: &R, title: &str, came: Option<bool>) -> io::Result<()> {
    let word = if came == Some(true) { "yes" } else { "no" };
    println!(rt; "{title}: {word}")
}

fn main(rt: HostRuntime) -> io::Result<()> {
    let alloc = rt.alloc();
    print(
        &rt,
        "the last ticket is served, and then no more",
        last::is_served(&rt, alloc),
    )?;
    print(
        &rt,
        "two threads count to two thousand",
        counting::by_two(&rt, alloc),
    )?;
    print(
        &rt,
        "sixty-four threads take a thousand turns each",
        counting::by_many(&rt, alloc),
    )?;
    print(
        &rt,
        "a mark of another thread ends a rest",
        resting::is_ended_by_marks(&rt, alloc),
    )?;
    print(
        &rt,
        "turns without marks end no rest, and it ends by itself",
        resting::ends_by_itself(&rt, alloc),
    )
}
