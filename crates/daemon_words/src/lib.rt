//! The words of `virtd`'s command line, read and listed.
#![tactic(auto)]

mod command;
mod listing;
mod read;

pub use command::DaemonCommand;
pub use listing::command_list;
pub use read::read_words;
