//! Device definitions: what a tree of a disk or an interface says, and the tests of many of them; with
//! what prints them and fills them in.
#![tactic(auto)]

mod devices;
mod disk;
mod interface;
mod keys;
mod reading;
mod table;

pub use devices::devices_test;
pub use disk::disk_of;
pub use interface::interface_of;
pub use reading::read;
pub use text_spec::{DefFault, DefKind, DeviceKind};
pub use xml_fill::{fill_device, fill_domain};
pub use xml_print::{domain_fits, print_device, print_domain, print_live, read_tree};
