//! The book of networks: which are there, and which addresses they lease. Threads change it in turns, and each call is one mark.
#![tactic(auto)]

mod book;
mod chronicle;
mod entry;
mod found;
mod hosts;
mod kept;
mod leases;
mod mac_index;
mod marking;
mod refusals;
mod story;
mod table;
mod turns;

pub use book::NetBook;
pub use found::{FoundNetwork, FoundNetworkList};
pub use turns::{
    NetPass, NetTurn, autostart_in, define_in, lease, lease_in, may_autostart_in, may_define_in,
    may_undefine_in, refuse_in, start, start_in, stop, stop_in, undefine_in,
};
