// The answer to a request.
use virt_types::{CellName, Front, Reply};

/// What a request is answered, and which place of which history that rests on.
#[derive(Drop)]
pub struct Outcome {
    /// What the caller is told.
    pub reply: Reply,
    /// The cell whose history decides it.
    pub cell: CellName,
    /// The place of the call's last mark there, or how far the history had come that was read.
    pub front: Front,
}
