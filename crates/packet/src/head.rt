// What is at the front of some bytes: a packet, a part of one, or what no packet begins with.
ghost use Rattle.std.specs.Prelude.{◌≡◌, ◌+◌, ◌≤◌, ◌++◌, length, drop, None, IfOk};
ghost use Rattle.wire_spec.specs.Packets.{word_at, fault, length_fault, kind_fault, status_fault, spelling, IsPacket};
ghost use Rattle.packet.specs.Front.{Begins, StandsAt, header_at};

use std::alloc::Global;
use types_base::{Bytes, NoMemory};
use wire_spec::{
    BadPacket, CALL, CONTINUE, HEADER_LENGTH, Header, MESSAGE, MOST_BYTES, OK, Packet,
};

/// What is at the front of some bytes.
#[derive(Drop)]
pub(crate) enum Front {
    /// Not yet a whole packet.
    Part,
    /// No packet begins so.
    Bad(BadPacket),
    /// A packet of so many bytes.
    Whole(Packet, usize),
}

fn word_of(bytes: &[u8], at: usize) -> u32
    requires { at + 4 ≤ length bytes.now }
    ensures { result ≡ word_at at bytes.now }
{
    let word = &bytes[at..at + 4];
    u32::from_be_bytes([word[0], word[1], word[2], word[3]])
}

fn bad_status(kind: u32, status: u32) -> Option<BadPacket>
    ensures { result ≡ status_fault kind status }
{
    if status > CONTINUE || kind == CALL && status > OK {
        Some(BadPacket::Status { s: status })
    } else {
        None
    }
}

fn bad_kind(bytes: &[u8], kind: u32) -> Option<BadPacket>
    ensures { result ≡ kind_fault bytes.now kind }
{
    if kind > MESSAGE {
        Some(BadPacket::Kind { t: kind })
    } else if bytes.len() < HEADER_LENGTH as usize {
        None
    } else {
        bad_status(kind, word_of(bytes, 24))
    }
}

fn bad_length(bytes: &[u8], length: u32) -> Option<BadPacket>
    ensures { result ≡ length_fault bytes.now length }
{
    if length < HEADER_LENGTH {
        Some(BadPacket::LengthLow { l: length })
    } else if length > MOST_BYTES {
        Some(BadPacket::LengthHigh { l: length })
    } else if bytes.len() < 20 {
        None
    } else {
        bad_kind(bytes, word_of(bytes, 16))
    }
}

/// The first of the words that no packet has there, as soon as it is there.
fn bad_front(bytes: &[u8]) -> Option<BadPacket>
    ensures { result ≡ fault bytes.now }
{
    if bytes.len() < 4 {
        None
    } else {
        bad_length(bytes, word_of(bytes, 0))
    }
}

fn header_of(bytes: &[u8]) -> Header
    requires { 28 ≤ length bytes.now }
    ensures { result ≡ header_at bytes.now }
{
    Header {
        prog: word_of(bytes, 4),
        vers: word_of(bytes, 8),
        procedure: word_of(bytes, 12),
        kind: word_of(bytes, 16),
        serial: word_of(bytes, 20),
        status: word_of(bytes, 24),
    }
}

/// The packet at the front of the bytes, which are all there.
fn packet_of(alloc: Global, bytes: &[u8], size: usize) -> Result<Packet, NoMemory>
    requires sound { fault bytes.now ≡ None }
    requires word_there { 4 ≤ length bytes.now }
    requires size { size ≡ word_at 0 bytes.now }
    requires all_there { size ≤ length bytes.now }
    ensures { IfOk result (StandsAt bytes.now size) }
{
    let header = header_of(bytes);
    let payload = Bytes::copy_of(alloc, &bytes[HEADER_LENGTH as usize..size])?;
    Ok(Packet { header, payload })
}

/// Looks at the front of the bytes: at its words, and at a payload only where that is whole.
pub(crate) fn front_of(alloc: Global, bytes: &[u8]) -> Result<Front, NoMemory>
    ensures { IfOk result (Begins bytes.now) }
{
    match bad_front(bytes) {
        Some(bad) => Ok(Front::Bad(bad)),
        None if bytes.len() < 4 => Ok(Front::Part),
        None => {
            let size = word_of(bytes, 0) as usize;
            if bytes.len() < size {
                return Ok(Front::Part);
            }
            Ok(Front::Whole(packet_of(alloc, bytes, size)?, size))
        }
    }
}
