// Words that payloads have in common, and the bounds of their items.

/// The version of both programs.
pub const VERSION: u32 = 1;

/// The error domain of each error: libvirt's `VIR_FROM_QEMU`.
pub const ERROR_DOMAIN: u32 = 10;

/// The level of each error: libvirt's `VIR_ERR_ERROR`.
pub const ERROR_LEVEL: u32 = 2;

/// The most bytes of a string that nothing but the packet bounds: those of its payload.
pub const PACKET_BOUND: u32 = 4_194_276;

/// The most names of a list.
pub const NAMES_BOUND: u32 = 1_024;

/// The most bytes of a domain's title in a reply.
pub const TITLE_BOUND: u32 = 1_024;

/// The number of the message of this project's own program that something came about in a domain.
pub const EVENT: u32 = 12;

/// The number of its message that more came about than one registration keeps.
pub const EVENT_LOST: u32 = 13;
