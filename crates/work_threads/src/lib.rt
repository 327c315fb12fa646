//! Pieces of work in threads: many at once, or each posted to a thread of a scope and waited for.
#![tactic(auto)]

mod all;
mod job;
mod posted;
#[cfg(test)]
mod tests;
mod work;

pub use all::do_all;
pub use job::Job;
pub use posted::{DoneBy, Posted, post, wait};
pub use work::Work;
