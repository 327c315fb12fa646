use virt_types::Refusal;

/// A test of a call.
#[derive(Drop)]
pub struct Test {
    /// Whether the call fails it.
    pub fails: bool,
    /// The refusal that it then gives.
    pub refusal: Refusal,
}
