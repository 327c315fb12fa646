//! The store of a driver is opened and read, and its files of version 1 are put again; and the list of the domains that were
//! found there.
#![tactic(auto)]

mod again;
mod fault;
mod listing;
mod reading;

pub use fault::DriverFault;
pub use found_domains::FoundDomain;
pub use listing::{open_list, starts_of};
pub use reading::{OpenStore, open_store};
