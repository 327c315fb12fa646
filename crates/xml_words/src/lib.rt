//! The words of definition texts, read and written: names of elements and attributes, the words of
//! lists, addresses, numbers, sizes. Each table of elements is read and printed by them.
#![tactic(auto)]

mod lists;
mod mac;
mod names;
mod number;
mod size;
mod unit;

pub use lists::{
    boot_device_of, boot_device_word, crash_action_of, crash_action_word, disk_device_of,
    disk_device_word, disk_type_of, disk_type_word, domain_type_of, domain_type_word,
    interface_type_of, interface_type_word, lifecycle_action_of, lifecycle_action_word,
};
pub use mac::{mac_of, mac_text};
pub use names::{attribute_word, element_word};
pub use number::read_number;
pub use size::{read_bytes, read_kibibytes};
pub use text_spec::SizeFault;
