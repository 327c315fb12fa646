//! Domain definitions: what a tree of a domain says; with what prints them and fills them in.
#![tactic(auto)]

mod devices;
mod head;
mod lists;
mod os;
mod reading;
mod resources;
mod table;

pub use device_xml::{fill_domain, print_domain, print_live, read_tree};
pub use reading::{read, what_is_read_fits};
pub use text_spec::{DefFault, DefKind};
