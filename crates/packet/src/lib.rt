//! Packets of a stream, in whatever pieces it comes, and the two ends that bytes come from and go to.
#![tactic(auto)]

mod feed;
mod head;
mod laws;
pub mod memory;
mod outside;
mod pieces;
mod put;
mod write;

pub use feed::Feed;
pub use outside::{Sink, Source};
pub use put::put_all;
pub use wire_spec::{
    BadPacket, CALL, ERROR, HEADER_LENGTH, Header, MESSAGE, MOST_BYTES, OK, Packet, REPLY,
};
pub use write::{WriteFault, begin_packet, finish_packet, write_packet};
