//! The link to a guest: what asks its monitor, what hears its events, and what ends it.
#![tactic(auto)]

mod counts;
mod exchange;
mod guest;
mod guests;
mod link;

pub use counts::Counts;
pub use exchange::Exchange;
pub use guest::{Guest, said_guest};
pub use guests::{Guests, Link};
pub use link::{Ears, Heard, Killer, Monitor};
