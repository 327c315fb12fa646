//! The files of the store, read: definitions in both versions, status files, and their names.
#![tactic(auto)]

mod definition;
mod file_name;
mod known;
mod lines;
mod status;
mod words;

pub use definition::{ReadDefinition, read_definition};
pub use file_name::{is_definition_name, is_status_name, read_definition_name, read_status_name};
pub use known::known_uuid;
pub use status::read_status;
