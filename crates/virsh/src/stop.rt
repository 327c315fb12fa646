// Why a command is not done.
use virt_types::Refusal;

/// Why a command is not done.
#[derive(Debug, Drop)]
pub enum Stop {
    /// The daemon refused a call.
    Refused(Refusal),
    /// The connection or standard output failed, or what came is no answer.
    Link,
    /// There was no memory.
    NoMemory,
}
