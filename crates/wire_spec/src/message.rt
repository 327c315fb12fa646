use types_base::Bytes;

/// The kind of a packet that asks for something and gets a reply (libvirt's `VIR_NET_CALL`).
pub const CALL: u32 = 0;

/// The kind of a packet that answers a call (`VIR_NET_REPLY`).
pub const REPLY: u32 = 1;

/// The kind of a packet that nobody asked for and that gets no reply (`VIR_NET_MESSAGE`).
pub const MESSAGE: u32 = 2;

/// The status where all is well, and the one that every call has (`VIR_NET_OK`).
pub const OK: u32 = 0;

/// The status of a refusal (`VIR_NET_ERROR`).
pub const ERROR: u32 = 1;

/// The status of a stream that goes on (`VIR_NET_CONTINUE`). This project writes none.
pub const CONTINUE: u32 = 2;

/// The length of a packet without payload: the length word and the six words after it.
pub const HEADER_LENGTH: u32 = 28;

/// The greatest length of a packet.
pub const MOST_BYTES: u32 = 4_194_304;

/// The six words after the length of a packet (libvirt's `virNetMessageHeader`, src/rpc/virnetprotocol.x).
#[derive(Clone, Copy, Debug, PartialEq, Eq)]
pub struct Header {
    /// The program that the procedure belongs to, such as 0x20008086.
    pub prog: u32,
    /// The version of the program, from 1.
    pub vers: u32,
    /// The number of the procedure in the program.
    pub procedure: u32,
    /// `CALL`, `REPLY` or `MESSAGE`.
    pub kind: u32,
    /// The number by which a reply names its call.
    pub serial: u32,
    /// `OK`, `ERROR` or `CONTINUE`; `OK` in each call.
    pub status: u32,
}

/// A packet: its header, and the bytes after it.
#[derive(Debug, Drop)]
pub struct Packet {
    /// The six words.
    pub header: Header,
    /// The arguments of a call, or what a reply or a message carries: at most 4,194,276 bytes.
    pub payload: Bytes,
}
