/// The most bytes of a word: a longer one is in no command line.
pub const MOST_WORD_BYTES: u64 = 65_536;

/// The most digits of a number that is no memory.
pub const MOST_DIGITS: u32 = 9;

/// The most digits of a memory in KiB.
pub const MOST_MEMORY_DIGITS: u32 = 19;

/// The most domains that `events` listens to.
pub const MOST_LISTENS: u32 = 16;
