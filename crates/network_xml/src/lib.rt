//! Networks as texts: read, filled in, and printed.
#![tactic(auto)]

mod addresses;
mod dhcp;
mod ip;
mod laws;
mod network;
mod network_tree;
mod subnet;

pub use laws::{filled_network_is_sound, printed_network_reads_back, read_network_is_sound};
pub use network::{fill, print, read};
pub use text_spec::{DefFault, DefKind};
