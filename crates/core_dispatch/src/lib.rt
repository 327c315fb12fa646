//! The driver as one: what any call and any phase of an operation asks, and what the answers give. Each
//! is served by one of the driver's parts; this crate finds that part.
#![tactic(auto)]

mod calls;
mod laws;
mod phases;

pub use calls::{CallParts, finish, next, parts};
pub use laws::{parts_outlast_boots, parts_outlast_operations};
pub use phases::{PhaseParts, finish_phase, next_phase, phase_parts};
