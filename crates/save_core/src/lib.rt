//! What saves, dumps, restores and migrations ask of a guest, and what the answers make of the domain.
//!
//! The calls are Save, Dump, Restore, Abort, Perform, Limit, Confirm, Prepare and Finish. They ask
//! nothing; the phases of the operations that they begin, take up or steer do. The phases that load,
//! copy, end a guest or give a copy up serve snapshots and reverts too. A phase's steps are a table
//! that no memory is taken for, and only the ask that is next is built.
#![tactic(auto)]

mod asking;
mod call_parts;
mod call_refusals;
mod calls;
mod copying;
mod loaded_from;
mod loading;
mod migrating;
mod phase_memory;
mod phases;
mod quitting;
mod steps;

pub use asking::next_phase;
pub use call_parts::Parts;
pub use calls::{finish, next, parts};
pub use loading::LoadedGuest;
pub use migrating::{GuestRoom, LeavingRoom};
pub use phase_memory::{PhaseParts, phase_parts};
pub use phases::finish_phase;
