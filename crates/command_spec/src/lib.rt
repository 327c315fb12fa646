//! The command lines of `virsh`: what each says, and what is printed of the answer.
#![tactic(auto)]

mod command;
mod fault;
mod form;
mod laws;
mod limits;

pub use command::{Command, Job, Listen, ListenList};
pub use fault::WordFault;
pub use form::{
    COMMANDS, DomainFileVerb, DomainVerb, FileVerb, Flag, Form, ImageVerb, NetworkVerb, NumberVerb,
    PlainVerb, PoolVerb, SnapshotVerb, VolumeVerb,
};
pub use laws::{commands_have_their_words, table_shows_shut_off};
pub use limits::{MOST_DIGITS, MOST_LISTENS, MOST_MEMORY_DIGITS, MOST_WORD_BYTES};
