//! A domain's history with its listeners: after each mark that tells something they hear it, and those
//! that overflow are cut before the next mark comes.
#![tactic(auto)]

mod calls;
mod chapters;
mod clients;
mod ends;
mod operations;
mod record;
mod telling;

pub use core_flight::{
    Back, Begun, Chronicle, Entry, LetIn, PhaseEntry, Step, Underway, job_held, job_of,
    operation_held, read, takes_up,
};
pub use record::Record;
