//! What a domain does, call by call, and which histories are lawful: the definitions in `specs/`.
#![tactic(auto)]

mod core_step;
mod laws;
mod loaded;
mod mark;
mod open;
mod owed;
mod planned;
mod progress;
mod standing;
mod step;
mod testing;

pub use core_step::{CoreStep, First};
pub use laws::{
    asked_stays, base_keeps, boots_are_new, boots_never_fall, closed_under_its_number,
    destroy_carries_its_boot, destroy_ends, each_boot_ends_once, ended_only_where_not_live,
    every_run_is_legal, has_whole_life, life_is_run, moves_are_made, one_job_at_a_time,
    one_operation_at_a_time, operations_go_on, owed_exactly, pending_is_owed, phase_asked_stays,
    registrations_agree, rising_goes_on,
};
pub use loaded::Loaded;
pub use mark::{HeldJobs, HeldOperation, Mark};
pub use open::{OpenJob, OpenOperation};
pub use owed::Owed;
pub use planned::PlannedAsk;
pub use progress::{DonePhase, Progress};
pub use standing::{Base, Client, Registration, Standing};
pub use step::{CallStep, Outcome, PhaseStep};
pub use testing::Test;
