//! Stories of sessions over one driver, each in a thread of its own, while a guest withholds an answer: each prints what its
//! sessions were told, and how they ended. After each the driver is closed with the rows of all sessions.
#![tactic(auto)]

mod asked;
mod client;
mod gate;
mod lines;
mod scene;
mod stage;
mod stories;
mod told;
mod words;

use stage::play;
use std::io;
use stories::STORIES;
use types_base::NoMemory;

fn main(rt: HostRuntime) -> io::Result<()> {
    for story in STORIES {
        match play(rt, rt.alloc(), story) {
            Ok(Some(told)) => println!(rt; "{}\n{}", story.title, told.as_str())?,
            Ok(None) => println!(rt; "{}\n  not closed", story.title)?,
            Err(NoMemory) => println!(rt; "{}\n  out of memory", story.title)?,
        }
    }
    Ok(())
}
