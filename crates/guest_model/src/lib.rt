//! A modelled guest, for tests of the daemon and its users: it answers as its definition's script says.
#![tactic(auto)]

mod asks;
mod guest;
mod happening;
mod link;
mod queue;
mod script;
#[cfg(test)]
mod tests;

pub use guest::SimGuest;
pub use happening::Happening;
pub use link::{SimEars, SimGuests, SimKiller, SimMonitor};
pub use queue::Queue;
