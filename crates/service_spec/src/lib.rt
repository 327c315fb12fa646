//! What serves the requests of sessions, and what a session over it takes and puts: the definitions.
#![tactic(auto)]

mod keepalive;
mod lanes;
mod laws;
mod service;

pub use keepalive::{KEEPALIVE, KEEPALIVE_VERSION, PING, PONG};
pub use lanes::READER;
pub use laws::{calls_come_in_turn, courses_run_their_calls};
pub use service::Service;
