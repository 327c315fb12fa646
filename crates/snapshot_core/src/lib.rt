//! Snapshots of a domain: how they are taken, deleted and gone back to, in place and with no memory
//! once the answers are there.
#![tactic(auto)]

mod calls;
mod deletion;
mod judging;
mod made;
mod names;
mod phases;
mod snaps;
mod taking;

pub use calls::{finish, next, parts};
pub use deletion::{Deletion, Others};
pub use made::{Parts, PhaseParts};
pub use phases::{finish_phase, next_phase, phase_parts};
pub use snaps::Snaps;
pub use taking::Taking;
