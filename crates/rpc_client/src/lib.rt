//! The client's end of a connection: a call, and the reply to it.
#![tactic(auto)]

mod answer;
mod client;
mod ends;
mod fault;
mod inlet;
mod kind;
mod note;
#[cfg(test)]
mod tests;

pub use client::Client;
pub use fault::ClientFault;
pub use packet::{Sink, Source};
pub use virt_types::Note;
