// A client over memory, and the packets of its tests.
ghost use Rattle.std.specs.Prelude.{◌≤◌, ◌+◌, length};
ghost use Rattle.procedure_spec.specs.Arguments.{HasArguments, arguments};
ghost use Rattle.wire_spec.specs.declared.message.TheConstants.{HEADER_LENGTH, MOST_BYTES};

use crate::Client;
use packet::memory::{MemorySink, MemorySource};
use std::alloc::{AllocError, Global};
use virt_types::{NoMemory, Request};

/// The reply to CONNECT_OPEN as the first call.
pub(super) const OPENED: [u32; 7] = [0x1c, 0x2000_8086, 1, 1, 1, 1, 0];

/// An event of the domain `a`: its event and detail are the last two words.
pub(super) const SUSPENDED: [u32; 16] = [
    0x40,
    0x2000_8f01,
    1,
    12,
    2,
    0,
    0,
    1,
    0x6100_0000,
    0,
    0,
    0,
    0,
    0xffff_ffff,
    3,
    0,
];

pub(super) const RESUMED: [u32; 16] = [
    0x40,
    0x2000_8f01,
    1,
    12,
    2,
    0,
    0,
    1,
    0x6100_0000,
    0,
    0,
    0,
    0,
    0xffff_ffff,
    4,
    0,
];

/// A keepalive PING.
pub(super) const PING: [u32; 7] = [0x1c, 0x6b65_6570, 1, 1, 2, 0, 0];

pub(super) fn put(bytes: &mut Vec<u8>, words: &[u32]) -> Result<(), AllocError> {
    for word in words {
        bytes.extend_from_slice(&word.to_be_bytes())?;
    }
    Ok(())
}

pub(super) fn bytes_of(alloc: Global, packets: &[&[u32]]) -> Result<Vec<u8>, AllocError> {
    let mut bytes = Vec::new(alloc);
    for words in packets {
        put(&mut bytes, words)?;
    }
    Ok(bytes)
}

pub(super) fn client(
    alloc: Global,
    source: MemorySource,
    sink: MemorySink,
) -> Result<Client<MemorySource, MemorySink>, NoMemory> {
    match Client::new(alloc, source, sink) {
        Ok(client) => Ok(client),
        Err(_) => Err(NoMemory),
    }
}

#[tactic(auto, unfolding(wire_spec::specs::Xdr::word))]
pub(super) fn open() -> Request
    ensures arguments { HasArguments result }
    ensures fits { HEADER_LENGTH + length (arguments result) ≤ MOST_BYTES }
{
    Request::ConnectOpen {
        name: None,
        flags: 0,
    }
}

#[tactic(auto, unfolding(wire_spec::specs::Xdr::word))]
pub(super) fn list(most: i32) -> Request
    ensures arguments { HasArguments result }
    ensures fits { HEADER_LENGTH + length (arguments result) ≤ MOST_BYTES }
{
    Request::ListDefinedDomains { most }
}
