//! Payloads as a client writes and reads them, which no program of the repository does yet: what is written of the calls, replies,
//! errors and messages that are read, and why others are none. The rows are in the input, whose head says how they are written.
#![tactic(auto)]

mod errors;
mod lines;
mod messages;
mod replies;
mod row;
mod words;

use std::io;

fn main(rt: HostRuntime) -> io::Result<()> {
    let alloc = rt.alloc();
    for line in rt.lines(alloc) {
        let said = row::said_of(alloc, line?.as_str());
        println!(rt; "{}", said.as_str())?;
    }
    Ok(())
}
