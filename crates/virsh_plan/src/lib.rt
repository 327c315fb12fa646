//! The plan of a command of `virsh`: which request follows the answers that came so far.
#![tactic(auto)]

mod domain;
mod known;
mod network;
mod plain;
mod plan;
mod pool;
mod step;

pub use command_spec::{Command, Flag};
pub use plan::next_request;
