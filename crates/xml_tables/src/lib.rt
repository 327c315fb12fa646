//! Looking into trees by tables of elements and by words, and values of texts at a path.
#![tactic(auto)]

mod content;
mod copied;
mod fault;
mod look;
mod row;
mod script;
mod spell;
mod trees;
mod values;
mod words_look;

pub use content::memory_size;
pub use copied::{copied_attribute, copied_value};
pub use fault::fault_at_path;
pub use look::{attribute_of, element_at, first_of, is_element, value_at, value_in};
pub use row::{fault_at, fault_of_root, rows_test};
pub use script::entries_of;
pub use spell::{add, add_worded, push_worth, spelled, worded};
pub use text_laws::{
    printed_device_reads_back, printed_domain_is_read, printed_domain_reads_back, read_is_writable,
};
pub use trees::{add_uuid, size_tree};
pub use values::{needed_name, needed_size, needed_text, optional_size, optional_uuid};
pub use words_look::{first_called, is_called, text_called, value_called};
pub use xml_words::{
    attribute_word, boot_device_of, boot_device_word, crash_action_of, crash_action_word,
    disk_device_word, disk_type_word, domain_type_of, domain_type_word, element_word,
    interface_type_word, lifecycle_action_of, lifecycle_action_word, mac_text, read_number,
};
