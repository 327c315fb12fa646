//! What a request is told for which the list of domains has no slot.
#![tactic(auto)]

mod refusing;

pub use outcome_spec::Task;
pub use refusing::reply_to;
