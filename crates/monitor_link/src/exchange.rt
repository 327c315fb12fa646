// A command and its answer.
use virt_types::{Answer, Command};

/// A command that was sent to a monitor, and what it was answered.
#[derive(Drop)]
pub struct Exchange {
    /// The command.
    pub command: Command,
    /// Its answer.
    pub answer: Answer,
}
