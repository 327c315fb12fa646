//! What of a domain may go to another thread, and what threads may share. Its types hold a tree of snapshots, which reaches
//! itself, so this is shown type by type here, and not anew wherever a domain meets threads.
#![tactic(auto)]

pub use domain_obj::{Chronicle, Desk, DomainObj, DomainPass, Hushed, Queried, Ticket};
use monitor_link::Guests;

/// Makers of guests whose links may go to other threads, part by part. It is asked for where there are threads, and nowhere
/// below.
pub trait ThreadGuests: Guests<M: Send, E: Send, Z: Send> {}

impl<G: Guests> ThreadGuests for G
where
    G::M: Send,
    G::E: Send,
    G::Z: Send,
{}

fn crosses<T: Send>() {}

fn is_shared<T: Sync>() {}

/// A pass may go to another thread, where the links of the domain's guests may. It does nothing.
pub fn pass_crosses<G: ThreadGuests>() {
    crosses::<DomainPass<G>>();
}

/// Threads may share a domain, where the links of its guests may go to another thread. It does nothing.
pub fn domain_is_shared<G: ThreadGuests>() {
    is_shared::<DomainObj<G>>();
}
