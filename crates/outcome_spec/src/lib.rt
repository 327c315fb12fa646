//! What the driver's answer to a request rests on: the definitions of outcomes.
#![tactic(auto)]

mod laws;
mod outcome;

pub use domain_requests::{Task, parse, task_of};
pub use laws::{
    a_reply_needs_a_mark, marks_are_of_one_request, reads_are_not_from_before,
    replies_are_sequential,
};
pub use outcome::Outcome;
pub use reply_texts::{print_reply, read_domain};
pub use store_asks::{Keeper, Opening, SavedGuest, SavedRead, read_saved_in};
