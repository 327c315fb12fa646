//! Fills in what definitions lack: identifiers and addresses of interfaces.
#![tactic(auto)]

mod device;
mod domain;
mod identifier;
mod mac;

pub use device::fill_device;
pub use domain::fill_domain;
pub use identifier::uuid_or_new;
