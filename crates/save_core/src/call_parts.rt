// What is set aside for a call.
use core_rules::Texts;

/// All memory that a call needs: room for the longest text of the refusal that it may get. It fits any
/// call in any state.
#[derive(Drop)]
pub struct Parts {
    /// For its caller and for its mark.
    pub texts: Texts,
}
