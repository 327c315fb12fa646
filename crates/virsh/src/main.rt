//! The client: one command for a daemon.
#![tactic(auto)]

mod calls;
mod connect;
mod dial;
mod handed;
mod listen;
mod print;
mod process;
mod say;
mod status;
mod stop;
mod top;

pub use dial::Dial;
use process::{Process, without_memory, words};
use std::process::ExitCode;
pub use top::virsh;
use virt_types::NoMemory;

fn main(rt: HostRuntime) -> ExitCode {
    match words(&rt) {
        Ok(words) => {
            let mut process = Process::new(&rt);
            ExitCode::from(virsh(rt.alloc(), words.as_slice(), &mut process))
        }
        Err(NoMemory) => ExitCode::from(without_memory(&rt)),
    }
}
