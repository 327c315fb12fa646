// The limits of definition texts, beside that of their bytes. Code and definitions cite these
// constants.

/// The most levels of elements. The root is the first.
pub const MOST_LEVELS: usize = 32;

/// The most elements of a text.
pub const MOST_ELEMENTS: usize = 4_096;

/// The most disks and interfaces of a domain, taken together.
pub const MOST_DEVICES: usize = 30;

/// The most processors of a domain.
pub const MOST_VCPUS: u32 = 255;
