//! What `virsh` prints of the daemon's answers.
#![tactic(auto)]

mod action;
mod column;
mod domain;
mod image;
mod list;
mod note;
mod object;
mod refusal;
mod table;
mod text;

pub use command_spec::{Command, Flag};
pub use note::note_line;
pub use refusal::refusal_line;
pub use text::text_of;
