//! Stories of a domain, at which calls take turns: each prints what its threads were told, and how many marks the pass of each
//! left. A call may be held between two phases, and the guest may answer late, so no client could cause these.
#![tactic(auto)]

mod acting;
mod asked;
mod casting;
mod counting;
mod definition;
mod desk;
mod domain_stage;
mod playing;
mod report;
mod row;
mod scene;
mod stage;
mod stories;
mod told;
mod words;

use playing::play;
use std::io;
use stories::STORIES;
use virt_types::NoMemory;

fn main(rt: HostRuntime) -> io::Result<()> {
    for story in STORIES {
        match play(rt, rt.alloc(), story) {
            Ok(row) => println!(rt; "{}: {}", story.title, row.as_str())?,
            Err(NoMemory) => println!(rt; "{}: out of memory", story.title)?,
        }
    }
    Ok(())
}
