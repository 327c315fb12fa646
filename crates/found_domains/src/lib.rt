//! What is found when a store is opened: its domains by rising name, and the files of version 1, which have to be
//! put again; or the first file that holds no good definition, or is one too many.
#![tactic(auto)]

mod files;
mod found;
mod opening;
mod order;
mod past;

pub use found::{FoundDomain, FoundDomains, FoundFault};
pub use opening::read_found;
