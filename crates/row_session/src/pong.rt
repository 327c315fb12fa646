// Keepalive messages.
ghost use Rattle.std.specs.Prelude.{◌≡◌, IfOk, OnOk};
ghost use Rattle.service_spec.specs.Keepalive.{is_ping as is_ping_header, pong, pong_header};
ghost use Rattle.wire_spec.specs.Packets.{IsPacket, spelling};

use packet::{Header, MESSAGE, OK, WriteFault, write_packet};
use service_spec::{KEEPALIVE, KEEPALIVE_VERSION, PING, PONG};
use std::alloc::Global;
use virt_types::{Bytes, NoMemory, OrNoMemory};

/// Whether a packet of this header is a PING.
pub(crate) fn is_ping(header: &Header) -> bool
    ensures { result ≡ is_ping_header header.now }
{
    header.kind == MESSAGE
        && header.prog == KEEPALIVE
        && header.vers == KEEPALIVE_VERSION
        && header.procedure == PING
}

// The words of a PONG.
fn pong_words() -> Header
    ensures { result ≡ pong_header }
{
    Header {
        prog: KEEPALIVE,
        vers: KEEPALIVE_VERSION,
        procedure: PONG,
        kind: MESSAGE,
        serial: 0,
        status: OK,
    }
}

/// A PONG as bytes.
pub(crate) fn write_pong(alloc: Global) -> Result<Bytes, NoMemory>
    ensures bytes { IfOk result (λ bytes. bytes ≡ spelling pong) }
    ensures whole { OnOk result (IsPacket pong) }
{
    match write_packet(alloc, &pong_words(), &[]) {
        Ok(bytes) => Ok(bytes),
        Err(OrNoMemory::NoMemory) => Err(NoMemory),
        Err(OrNoMemory::Fault(WriteFault::TooBig { .. })) => unreachable!(),
    }
}
