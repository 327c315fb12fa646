//! A lane between two threads: one end puts pieces, the other takes them, each once and in order.
#![tactic(auto)]

mod lane;
mod rule;
mod sleep;
#[cfg(test)]
mod tests;

pub use lane::{Lane, ROOM};
pub use rule::Knows;
pub use types_base::NoMemory;
