// The work of a feed: packets out of the bytes that it holds.
ghost use Rattle.std.specs.Prelude.{◌≡◌, ◌≤◌, length, drop, take, vec_len, IfOk, OnErr};
ghost use Rattle.wire_spec.specs.Packets.{fault};
ghost use Rattle.wire_spec.specs.Split.{IsRest, begun};
ghost use Rattle.packet.specs.Pieces.{Decodes, TakesPiece};

use crate::head::{Front, front_of};
use std::alloc::Global;
use std::collections::VecDeque;
use types_base::NoMemory;
use wire_spec::{BadPacket, Packet};

/// Where the whole packets of some bytes end, and why no packet begins there.
#[derive(Drop)]
struct Decoded {
    used: usize,
    bad: Option<BadPacket>,
}

/// Puts the whole packets of the bytes after those that are ready. An `Err` may leave some there.
fn decode(alloc: Global, ready: &mut VecDeque<Packet>, bytes: &[u8]) -> Result<Decoded, NoMemory>
    ensures ok { IfOk result (λ d. Decodes ready.old.items bytes.now ready.new.items d.used d.bad) }
    ensures err { OnErr result (take (length ready.old.items) ready.new.items ≡ ready.old.items) }
{
    let mut used = 0;
    loop {
        match front_of(alloc, bytes.split_at(used).1)? {
            Front::Whole(packet, size) => {
                ready.push_back(packet)?;
                used += size;
            }
            Front::Part => return Ok(Decoded { used, bad: None }),
            Front::Bad(bad) => {
                return Ok(Decoded {
                    used,
                    bad: Some(bad),
                });
            }
        }
    }
}

fn remove_front(bytes: &mut Vec<u8>, count: usize)
    requires { count ≤ vec_len bytes.old }
    ensures { bytes.new.items ≡ drop count bytes.old.items }
{
    let left = bytes.len() - count;
    bytes.rotate_left(count);
    bytes.truncate(left);
}

/// Puts a piece after the bytes, and moves each packet that is whole now. An `Err` changes nothing.
pub(crate) fn take_piece(
    alloc: Global,
    ready: &mut VecDeque<Packet>,
    rest: &mut Vec<u8>,
    piece: &[u8],
) -> Result<Option<BadPacket>, NoMemory>
    ensures ok { IfOk result (TakesPiece ready.old.items rest.old.items piece.now ready.new.items rest.new.items) }
    ensures err { OnErr result ((ready.new.items ≡ ready.old.items) × (rest.new.items ≡ rest.old.items)) }
{
    let held = rest.len();
    let waiting = ready.len();
    rest.extend_from_slice(piece)?;
    match decode(alloc, ready, rest) {
        Ok(decoded) => {
            remove_front(rest, decoded.used);
            Ok(decoded.bad)
        }
        Err(NoMemory) => {
            ready.truncate(waiting);
            rest.truncate(held);
            Err(NoMemory)
        }
    }
}

/// How many bytes of a packet these are, where this is their fault.
pub(crate) fn begun_of(rest: &[u8], bad: Option<BadPacket>) -> u32
    requires part { IsRest rest.now }
    requires bad_is { bad ≡ fault rest.now }
    ensures { result ≡ begun rest.now }
{
    match bad {
        Some(_) => 0,
        None => rest.len() as u32,
    }
}
