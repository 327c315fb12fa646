//! A session: packets are taken of a source, each call is run with a row, and each message is put into a sink.
#![tactic(auto)]

mod asking;
mod calls;
mod connection;
mod loops;
mod pong;
mod reading;
mod refuse;
mod running;
mod say;
mod write;

pub use connection::{SixRows, serve};
pub use service_spec::Service;
pub use session_spec::End;
