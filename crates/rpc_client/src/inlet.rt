// What a client takes of its source, packet by packet.
ghost use Rattle.std.specs.Prelude.{◌≡◌, ◌≤◌, ◌<◌, ◌+◌, ◌∷◌, [], length, OnOk, IfOk, IfErr, None};
ghost use Rattle.std.specs.Io.{ReadsAtMost};
ghost use Rattle.std.specs.Io.KnownBytes.{ReadConsumes};
ghost use Rattle.outside_spec.specs.Faults.{HasCause};
ghost use Rattle.packet.specs.Feeding.{Grows, IsSplit};
ghost use Rattle.wire_spec.specs.Packets.{fault};
ghost use Rattle.rpc_client.specs.Inflow.{Gets, Gives, GivesNone, Hears, Passes, StopsOrNoMemory};
ghost use Rattle.rpc_client.specs.Inlets.{Learns, Stands, seen};

use crate::fault::ClientFault;
use crate::kind::{is_event, is_reply};
use packet::{BadPacket, Feed, Packet, Source};
use std::collections::VecDeque;
use virt_types::{Failed, NoMemory, OrNoMemory};

/// The most bytes that are taken of one source.
pub(crate) const MOST: u64 = 1 << 62;

/// The most bytes that are taken of it at once.
pub(crate) const PIECE: usize = 4096;

/// The end of a connection at which bytes come in.
#[derive(Drop)]
pub(crate) struct Inlet<S> {
    /// Where they come from.
    pub(crate) source: S,
    /// The packets that they are.
    pub(crate) feed: Feed,
    /// Why no packet begins after these.
    pub(crate) bad: Option<BadPacket>,
    /// How many bytes were taken.
    pub(crate) taken: u64,
    /// The events that were met, the oldest first.
    pub(crate) events: VecDeque<Packet>,
    /// Where a piece is taken to.
    pub(crate) piece: [u8; PIECE],
}

/// Feeds a piece to a feed that has found no fault so far, and says whether it finds one now.
fn take_in(feed: &mut Feed, piece: &[u8]) -> Result<Option<BadPacket>, NoMemory>
    requires { fault feed.old.rest ≡ None }
    ensures grows { OnOk result (Grows feed.old piece.now feed.new) }
    ensures fault { IfOk result (λ bad. bad ≡ fault feed.new.rest) }
    ensures split { IsSplit feed.new }
{
    match feed.feed(piece) {
        Ok(()) => Ok(None),
        Err(OrNoMemory::Fault(bad)) => Ok(Some(bad)),
        Err(OrNoMemory::NoMemory) => Err(NoMemory),
    }
}

/// Takes bytes of a source into a front of the piece, and at most so many.
fn take_within<S: Source>(source: &mut S, piece: &mut [u8], most: u64) -> Result<usize, Failed>
    requires piece { 0 < length piece.old }
    requires most { 0 < most }
    ensures within { IfOk result (λ count. count ≤ most) }
    ensures bound { ReadsAtMost result piece.new }
    ensures bytes { ReadConsumes (S.left source.old) (S.left source.new) result piece.new }
    ensures cause { HasCause (S.faults source.old) (S.faults source.new) result }
{
    if most < piece.len() as u64 {
        source.take(piece.split_at_mut(most as usize).0)
    } else {
        source.take(piece)
    }
}

impl<S: Source> Inlet<S> {
    /// Takes the next piece of the source.
    fn take_piece(&mut self) -> Result<(), OrNoMemory<ClientFault>>
        requires stands { Stands self.old }
        requires sound { self.old.bad ≡ None }
        requires none_ready { self.old.feed.ready ≡ [] }
        ensures ok { OnOk result (Hears S.left S.faults (seen self.old) (seen self.new) []) }
        ensures more { OnOk result (self.old.taken < self.new.taken) }
        ensures events { self.new.events.items ≡ self.old.events.items }
        ensures err { IfErr result (StopsOrNoMemory S.left S.faults (seen self.old) (seen self.new)) }
        ensures stands { OnOk result (Stands self.new) }
        ensures later { S.faults self.old.source ≤ S.faults self.new.source }
    {
        if self.taken >= MOST {
            return Err(OrNoMemory::Fault(ClientFault::End));
        }
        match take_within(&mut self.source, &mut self.piece, MOST - self.taken) {
            Ok(0) => Err(OrNoMemory::Fault(ClientFault::End)),
            Ok(count) => {
                self.taken += count as u64;
                match take_in(&mut self.feed, self.piece.as_slice().split_at(count).0) {
                    Ok(bad) => {
                        self.bad = bad;
                        Ok(())
                    }
                    Err(NoMemory) => Err(OrNoMemory::NoMemory),
                }
            }
            Err(Failed) => Err(OrNoMemory::Fault(ClientFault::Link)),
        }
    }

    /// The next packet.
    fn next_packet(&mut self) -> Result<Packet, OrNoMemory<ClientFault>>
        requires { Stands self.old }
        ensures ok { IfOk result (λ p. Passes S.left S.faults (seen self.old) (seen self.new) (p ∷ [])) }
        ensures events { self.new.events.items ≡ self.old.events.items }
        ensures err { IfErr result (StopsOrNoMemory S.left S.faults (seen self.old) (seen self.new)) }
        ensures stands { OnOk result (Stands self.new) }
        ensures later { S.faults self.old.source ≤ S.faults self.new.source }
    {
        loop {
            if let Some(packet) = self.feed.next() {
                return Ok(packet);
            }
            if let Some(bad) = self.bad {
                return Err(OrNoMemory::Fault(ClientFault::BadPacket(bad)));
            }
            match self.take_piece() {
                Ok(()) => {}
                Err(fault) => return Err(fault),
            }
        }
    }

    /// Looks at the next packet: a reply is given, an event is kept, and another passed over.
    fn look(&mut self) -> Result<Option<Packet>, OrNoMemory<ClientFault>>
        requires { Stands self.old }
        ensures ok { IfOk result (Learns S.left S.faults (seen self.old) (seen self.new)) }
        ensures err { IfErr result (StopsOrNoMemory S.left S.faults (seen self.old) (seen self.new)) }
        ensures stands { OnOk result (Stands self.new) }
        ensures later { S.faults self.old.source ≤ S.faults self.new.source }
    {
        match self.next_packet() {
            Ok(packet) => {
                if is_reply(&packet.header) {
                    return Ok(Some(packet));
                }
                if !is_event(&packet.header) {
                    return Ok(None);
                }
                match self.events.push_back(packet) {
                    Ok(()) => Ok(None),
                    Err(_) => Err(OrNoMemory::NoMemory),
                }
            }
            Err(fault) => Err(fault),
        }
    }

    /// The next reply. Events that come before it are kept.
    pub(crate) fn next_reply(&mut self) -> Result<Packet, OrNoMemory<ClientFault>>
        requires { Stands self.old }
        ensures ok { IfOk result (Gets S.left S.faults (seen self.old) (seen self.new)) }
        ensures err { IfErr result (StopsOrNoMemory S.left S.faults (seen self.old) (seen self.new)) }
        ensures stands { OnOk result (Stands self.new) }
        ensures later { S.faults self.old.source ≤ S.faults self.new.source }
    {
        loop {
            match self.look() {
                Ok(Some(reply)) => return Ok(reply),
                Ok(None) => {}
                Err(fault) => return Err(fault),
            }
        }
    }

    /// The oldest event that was not given yet. A reply that comes is a fault: the last call, of which
    /// this is the number, has its reply.
    pub(crate) fn next_event(&mut self, sent: u32) -> Result<Packet, OrNoMemory<ClientFault>>
        requires { Stands self.old }
        ensures ok { IfOk result (Gives S.left S.faults (seen self.old) (seen self.new)) }
        ensures err { IfErr result (GivesNone S.left S.faults sent (seen self.old) (seen self.new)) }
        ensures stands { OnOk result (Stands self.new) }
    {
        while self.events.is_empty() {
            match self.look() {
                Ok(Some(reply)) => {
                    return Err(OrNoMemory::Fault(ClientFault::WrongSerial {
                        sent,
                        got: reply.header.serial,
                    }));
                }
                Ok(None) => {}
                Err(fault) => return Err(fault),
            }
        }
        match self.events.pop_front() {
            Some(event) => Ok(event),
            None => unreachable!(),
        }
    }
}
