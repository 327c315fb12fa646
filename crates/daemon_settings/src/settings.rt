// What the configuration says, and why it says nothing.
use thiserror::Error;

/// The most sessions that are served at once.
pub const MOST_SESSIONS: u32 = 64;

/// How many may be served at once where the configuration does not say.
pub const DEFAULT_SESSIONS: u32 = 20;

/// What the daemon's configuration says.
#[derive(Clone, Copy, Debug, PartialEq, Eq)]
pub struct Settings {
    /// How many sessions may be served at once, from 1 to 64.
    pub max_sessions: u32,
}

/// A line of the configuration that is in no form.
#[derive(Clone, Copy, Debug, PartialEq, Eq, Error)]
#[error("configuration line {line}")]
pub struct BadLine {
    /// The line's number, counted from 1.
    pub line: u64,
}

/// Why the configuration of a directory is not known.
#[derive(Clone, Copy, Debug, PartialEq, Eq, Error)]
pub enum SettingsFault {
    /// The store failed.
    #[error("the store failed")]
    Device,
    /// A line is in no form.
    #[error("{0}")]
    Line(BadLine),
}
