//! What calls and phases ask: planned whole before the first ask is handed out, then asked one after the other, also
//! where a call or a phase is away between two turns; and why its Done or its Phase is lawful whatever happened meanwhile.
#![tactic(auto)]

mod call_courses;
mod call_laws;
mod course;
mod made;
mod phase_courses;
mod phase_laws;
mod phase_probe;
mod plan;
mod probe;

pub use call_courses::course_of;
pub use call_laws::{
    ends_of_boots_keep, ends_of_operations_keep, first_is_away, first_is_done,
    is_done_after_its_boot, is_done_at_once, is_done_then, is_done_while_live, is_planned_by_one,
    stays_away,
};
pub use core_dispatch::{CallParts, PhaseParts, parts, phase_parts};
pub use course::Course;
pub use phase_courses::phase_course_of;
pub use phase_laws::{
    ends_of_boots_keep_phases, first_phase_is_away, first_phase_is_done, is_phased_after_its_boot,
    is_phased_at_once, is_phased_starved, is_phased_then, is_phased_while_live, phase_stays_away,
    phases_begin, phases_go_on, plans_follow_answers, plans_stay,
};
pub use plan::Plan;
