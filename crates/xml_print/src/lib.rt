//! The trees of definitions, and their texts; that of a running domain with the addresses of its devices.
#![tactic(auto)]

mod absent;
mod address;
mod attributes;
mod bytes;
mod count;
mod device;
mod device_elements;
mod devices;
mod domain;
mod elements;
mod fits;
mod general;
mod laws;
mod print;
mod running_devices;
mod running_print;
mod system;
mod tree;

pub use absent::Absent;
pub use device::device_tree;
pub use domain::domain_tree;
pub use fits::{device_fits, domain_fits, tree_fits};
pub use laws::{addresses_are_passed_over, live_text_reads_back};
pub use markup::{read_tree, write_tree};
pub use print::{print_device, print_domain};
pub use running_print::print_live;
pub use xml_tables::read_is_writable;
