// Keepalive messages (libvirt, src/rpc/virkeepaliveprotocol.x).

/// The program of keepalive messages: `keep` in ASCII.
pub const KEEPALIVE: u32 = 0x6b65_6570;

/// The version of that program.
pub const KEEPALIVE_VERSION: u32 = 1;

/// The procedure of a message that asks whether the other end is there.
pub const PING: u32 = 1;

/// The procedure of the message that answers it.
pub const PONG: u32 = 2;
