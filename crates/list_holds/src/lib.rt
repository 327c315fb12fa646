//! A request asks the list of domains for the slot of its domain, learns where the mark of that is, and gives the slot
//! back.
#![tactic(auto)]

mod holding;
mod releasing;

pub use holding::hold_slot;
pub use releasing::give_back;
