// The statuses of the program.

/// All was done.
pub(crate) const DONE: u8 = 0;

/// The daemon refused a call.
pub(crate) const REFUSED: u8 = 1;

/// The words are those of no command.
pub(crate) const USAGE: u8 = 2;

/// The file has no text that may be sent.
pub(crate) const BAD_FILE: u8 = 3;

/// The file can't be read.
pub(crate) const FILE: u8 = 4;

/// The connection or standard output failed, or what came is no answer.
pub(crate) const LINK: u8 = 5;

/// There was no memory.
pub(crate) const OUT_OF_MEMORY: u8 = 12;
