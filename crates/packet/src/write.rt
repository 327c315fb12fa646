// Packets as bytes. A payload is written after its header and the length word last, so that each
// byte is copied once.
ghost use Rattle.std.specs.Prelude.{◌≡◌, ◌+◌, ◌≤◌, ◌++◌, length, vec_len, drop, IfOk, IfErr, OnOk};
ghost use Rattle.wire_spec.specs.Packets.{HasKind, IsPacket, header as header_words, spelling};
ghost use Rattle.wire_spec.specs.Xdr.{word};
ghost use Rattle.wire_spec.specs.declared.message.TheConstants.{HEADER_LENGTH};
ghost use Rattle.packet.specs.Writing.{Frames, HasWords, IsRefused, packet_with};

use std::alloc::Global;
use std::error::Error;
use std::fmt;
use types_base::{Bytes, NoMemory, OrNoMemory};
use wire_spec::{HEADER_LENGTH, Header, MOST_BYTES};
use xdr_codec::Writer;

/// Why a packet was not written.
#[derive(Clone, Copy, Debug, PartialEq, Eq)]
pub enum WriteFault {
    /// The packet would be longer than packets are.
    TooBig {
        /// Its length.
        l: u64,
    },
}

impl fmt::Display for WriteFault {
    fn fmt<W: fmt::Write>(&self, f: &mut fmt::Formatter<W>) -> fmt::Result {
        match self {
            WriteFault::TooBig { l } => write!(f, "a packet of {l} bytes is too long"),
        }
    }
}

impl Error for WriteFault {}

// What is set aside for a packet at first: enough for one that carries a reference to a domain.
const ROOM: usize = 128;

/// A writer that has written this header; `finish_packet` writes the length word before it.
pub fn begin_packet(alloc: Global, header: &Header) -> Result<Writer, NoMemory>
    ensures written { IfOk result (λ w. w ≡ word 0 ++ header_words header.now) }
    ensures words { OnOk result (HasWords header.now) }
{
    let mut writer = Writer::with_room(alloc, ROOM)?;
    writer.put_u32(0)?;
    writer.put_u32(header.prog)?;
    writer.put_u32(header.vers)?;
    writer.put_u32(header.procedure)?;
    writer.put_u32(header.kind)?;
    writer.put_u32(header.serial)?;
    writer.put_u32(header.status)?;
    Ok(writer)
}

// Writes a word over the first four bytes.
#[tactic(auto, unfolding(wire_spec::specs::Xdr::word))]
fn put_front(bytes: &mut Vec<u8>, value: u32)
    requires { 4 ≤ vec_len bytes.old }
    ensures { bytes.new.items ≡ word value ++ drop 4 bytes.old.items }
{
    let word = value.to_be_bytes();
    bytes[0] = word[0];
    bytes[1] = word[1];
    bytes[2] = word[2];
    bytes[3] = word[3];
}

// Writes the length word of what was written after it.
fn framed(mut bytes: Vec<u8>) -> Result<Bytes, OrNoMemory<WriteFault>>
    requires { HEADER_LENGTH ≤ length bytes.items }
    ensures { Frames bytes.items result }
{
    let length = bytes.len();
    if length > MOST_BYTES as usize {
        return Err(OrNoMemory::Fault(WriteFault::TooBig { l: length as u64 }));
    }
    put_front(&mut bytes, length as u32);
    Ok(Bytes::of(bytes))
}

/// The packet whose payload was written after the header that `begin_packet` wrote.
pub fn finish_packet(writer: Writer) -> Result<Bytes, OrNoMemory<WriteFault>>
    requires { HEADER_LENGTH ≤ length writer }
    ensures { Frames writer result }
{
    framed(writer.finish().into_vec())
}

// A header and a payload, without the length word.
fn unframed(alloc: Global, header: &Header, payload: &[u8]) -> Result<Vec<u8>, NoMemory>
    ensures written { IfOk result (λ bytes. bytes.items ≡ (word 0 ++ header_words header.now) ++ payload.now) }
    ensures words { OnOk result (HasWords header.now) }
{
    let mut bytes = begin_packet(alloc, header)?.finish().into_vec();
    bytes.extend_from_slice(payload)?;
    Ok(bytes)
}

/// The one spelling of the packet with this header and payload.
pub fn write_packet(
    alloc: Global,
    header: &Header,
    payload: &[u8],
) -> Result<Bytes, OrNoMemory<WriteFault>>
    requires { HasKind header.now }
    ensures bytes { IfOk result (λ bytes. bytes ≡ spelling (packet_with header.now payload.now)) }
    ensures packet { OnOk result (IsPacket (packet_with header.now payload.now)) }
    ensures err { IfErr result (IsRefused (HEADER_LENGTH + length payload.now)) }
{
    if payload.len() > (MOST_BYTES - HEADER_LENGTH) as usize {
        return Err(OrNoMemory::Fault(WriteFault::TooBig {
            l: HEADER_LENGTH as u64 + payload.len() as u64,
        }));
    }
    let bytes = unframed(alloc, header, payload)?;
    framed(bytes)
}
