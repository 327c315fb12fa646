//! Workers of a connection: each takes pieces from its lane, answers them one after the other, and
//! says the answers at the sink that all workers of the connection share.
#![tactic(auto)]

mod answers;
mod starting;
#[cfg(test)]
mod tests;
mod worker;
mod working;

pub use answers::Answers;
pub use starting::{Started, start};
pub use worker::{Stop, Worked, Worker};
pub use working::work;
