// Limits that more than one crate cites.

/// The most bytes of a definition's text.
pub const MOST_TEXT_BYTES: usize = 65_536;

/// The most bytes of a guest's state that is kept or handed on.
pub const MOST_STATE_BYTES: usize = 4096;

/// The most bytes that a refusal keeps of a text.
pub const MOST_KEPT_BYTES: usize = 1024;

/// The most domains that a daemon holds.
pub const MOST_DOMAINS: usize = 256;
