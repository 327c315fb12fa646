//! The directory in which the store keeps its files: what a store may rely on, such a directory in
//! memory, and a directory of the system.
#![tactic(auto)]

mod directory;
mod failing;
mod files;
mod images;
mod listing;
mod memory;
mod paths;
mod putting;
mod seen;

pub use directory::{DirFiles, MOST_FILE_BYTES};
pub use failing::{Effect, FailingCall};
pub use files::Files;
pub use memory::MemFiles;
pub use putting::{put_file, remove_file};
