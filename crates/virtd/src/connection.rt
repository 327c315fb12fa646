// A connection, as the world makes it and gets it back.

/// A connection: its two ends, and what is drawn for it.
#[derive(Drop)]
pub struct Connection<S, K, R> {
    /// Where its calls come from.
    pub source: S,
    /// Where its replies go to.
    pub sink: K,
    /// Words without a pattern, for new identifiers and addresses.
    pub random: R,
}
