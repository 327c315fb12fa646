//! The words of `virsh`'s command line, read.
#![tactic(auto)]

mod line;
mod listens;
mod number;
mod read;
mod rest;
#[cfg(test)]
mod tests;
mod text;

pub use command_spec::{
    COMMANDS, Command, DomainFileVerb, DomainVerb, FileVerb, Flag, Form, ImageVerb, Job, Listen,
    ListenList, NetworkVerb, NumberVerb, PlainVerb, PoolVerb, SnapshotVerb, VolumeVerb, WordFault,
};
pub use read::read_words;
