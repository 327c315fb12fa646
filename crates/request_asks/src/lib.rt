//! What a request asks, found out before anybody looks at a domain: which slot of the list, and what of the domain there;
//! or why it is refused.
#![tactic(auto)]

mod asked;
mod claiming;
mod defining;
mod listing;
mod looking;
mod naming;
mod reading;
mod refusing;
mod restoring;
mod words;

pub use asked::{Asked, Listing};
pub use def_keeper::Opening;
pub use reading::read_request;
