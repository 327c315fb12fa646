//! Frames on the wire: the items of XDR, packets, and what is in a stream of bytes.
#![tactic(auto)]

mod fault;
mod message;

pub use fault::{BadPacket, XdrFault};
pub use message::{
    CALL, CONTINUE, ERROR, HEADER_LENGTH, Header, MESSAGE, MOST_BYTES, OK, Packet, REPLY,
};
