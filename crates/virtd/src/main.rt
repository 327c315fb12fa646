//! The daemon: standard input and output served as one connection.
#![tactic(auto)]

mod at_once;
mod checking;
mod connection;
mod demo;
mod first;
mod handed;
mod print;
mod process;
mod say;
mod serving;
mod status;
mod top;
mod world;

pub use at_once::offline;
pub use connection::Connection;
pub use first::First;
use process::{Process, SystemWords, without_memory, without_seed, words};
use std::process::ExitCode;
pub use top::virtd;
use virt_types::{Failed, NoMemory};
pub use world::World;

fn main(rt: HostRuntime) -> ExitCode {
    let words = match words(&rt) {
        Ok(words) => words,
        Err(NoMemory) => return ExitCode::from(without_memory(&rt)),
    };
    match SystemWords::new(&rt) {
        Ok(random) => {
            let mut world = Process::new(&rt, &rt, random);
            if let Some(status) = offline(rt.alloc(), words.as_slice(), &mut world) {
                return ExitCode::from(status);
            }
            ExitCode::from(virtd(&rt, rt.alloc(), words.as_slice(), &mut world))
        }
        Err(Failed) => ExitCode::from(without_seed(&rt, words.as_slice())),
    }
}
