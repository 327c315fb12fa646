// The lanes of a session.

/// The lane whose calls the activity runs that reads.
pub const READER: u32 = 4;
