//! What a turn of a domain leaves of what is kept for each pass, of the definitions alone: it concerns the number of its own
//! pass; which marks a pass gets of it; and which boot's guest is there.
#![tactic(auto)]

mod boot_laws;
mod laws;
mod mark_laws;
mod own_laws;

pub use boot_laws::{made_by_its_make, made_stays_made, marks_agree, opened_agrees, phases_agree};
pub use laws::{
    calls_stay, marks_are_own, operations_stay, others_are_kept, shares_tell, turns_go_on,
};
pub use mark_laws::{
    answers_leave, beginnings_leave, ends_leave, looks_leave, opened_is_steady, others_ask_on,
    others_have_none, own_are_all, phases_leave, refusals_are_own, some_leave_none,
    takings_up_leave, turns_keep_steady,
};
pub use own_laws::{
    answers_keep, beginnings_keep, beginnings_queue, chapters_keep, ends_keep, hearings_keep,
    leavers_keep, looks_keep, looks_queue, operation_queues_tell, phases_keep, queues_tell,
    refusals_keep, takes_keep, takings_up_keep, takings_up_queue, unwatches_keep, watches_keep,
};
