// How a session ends.
use std::fmt;
use wire_spec::BadPacket;

/// How a session ended.
#[derive(Clone, Copy, Debug, PartialEq, Eq)]
pub enum End {
    /// A call of CONNECT_CLOSE was answered.
    Closed,
    /// The input ended after a packet.
    Eof,
    /// The input ended inside a packet.
    Truncated {
        /// How many bytes of it had come.
        rest: u32,
    },
    /// No packet begins as the bytes after the last packet do.
    BadPacket(BadPacket),
    /// The source failed.
    SourceFault,
    /// The sink failed.
    SinkFault,
    /// There was no memory.
    NoMemory,
}

impl fmt::Display for End {
    fn fmt<W: fmt::Write>(&self, f: &mut fmt::Formatter<W>) -> fmt::Result {
        match self {
            End::Closed => write!(f, "closed"),
            End::Eof => write!(f, "end of input"),
            End::Truncated { rest } => write!(f, "truncated {rest}"),
            End::BadPacket(bad) => write!(f, "bad packet {bad}"),
            End::SourceFault | End::SinkFault => write!(f, "link"),
            End::NoMemory => write!(f, "out of memory"),
        }
    }
}
