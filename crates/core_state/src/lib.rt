//! A domain's state: what queries read of it, and what changes it beside the answers of calls.
#![tactic(auto)]

mod ends;
mod operations;
mod queries;

pub use ends::{exit_event, follow_event};
pub use operations::{
    begin, due_phase, end_operation, new_domain, opened_state, phase_taken_up, take_up,
};
pub use queries::read;
