//! What registrations keep until it is taken, and who is registered for a domain's transitions.
#![tactic(auto)]

mod cut;
mod laws;
mod listener;
mod listeners;
mod listeners_laws;
mod step;
mod taken;
mod watch;

pub use cut::Cut;
pub use laws::taken_and_pending_are_owed;
pub use listener::Listener;
pub use listeners::{Listeners, MOST_LISTENERS};
pub use listeners_laws::{cuts_are_due, cuts_are_lawful};
pub use step::WatchStep;
pub use taken::Taken;
pub use watch::{Pushed, Watch};
