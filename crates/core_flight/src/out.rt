// What is away.
use crate::away::Away;
use crate::phase_out::PhaseOut;

/// What waits for an answer.
#[derive(Drop)]
pub enum Out {
    /// A call.
    Call(Away),
    /// The due phase of the operation that is open.
    Phase(PhaseOut),
}
