// A stream in pieces, as packets.
ghost use Rattle.std.specs.Prelude.{◌≡◌, ◌∷◌, [], IfOk, OnOk, IfErr, IfSome, IfNone, None};
ghost use Rattle.wire_spec.specs.Packets.{fault};
ghost use Rattle.wire_spec.specs.Split.{begun};
ghost use Rattle.packet.specs.Feeding.{IsSplit, Grows, Refuses, nothing};

use crate::pieces::{begun_of, take_piece};
use std::alloc::Global;
use std::collections::VecDeque;
use std::marker::Model;
use types_base::{NoMemory, OrNoMemory};
use wire_spec::{BadPacket, Packet};

// Room for the first bytes; it grows with the longest packet.
const ROOM: usize = 4096;

/// Takes a stream in pieces, however they are cut, and gives its packets. Contracts see the whole
/// packets that wait, and the bytes after them.
#[derive(Drop)]
pub struct Feed {
    alloc: Global,
    ready: VecDeque<Packet>,
    rest: Vec<u8>,
    bad: Option<BadPacket>,
}

impl Model for Feed {
    ghost use Rattle.packet.specs.Feeding.{Held, Kept};

    ghost Value = { Held };

    ghost view = { λ f. record { ready = f.ready.items; rest = f.rest.items } };

    ghost invariant = { λ f. Kept f.ready.items f.rest.items f.bad };
}

impl Feed {
    /// A feed that was given nothing so far.
    pub fn new(alloc: Global) -> Result<Feed, NoMemory>
        ensures { IfOk result (λ feed. feed ≡ nothing) }
    {
        Ok(Feed {
            alloc,
            ready: VecDeque::new(alloc),
            rest: Vec::with_capacity(alloc, ROOM)?,
            bad: None,
        })
    }

    /// Takes the next piece of the stream. Where the bytes after the whole packets are those of no
    /// packet it answers the first word that shows it; so does each later call, which takes nothing.
    /// The packets before are still given. After `NoMemory` the piece was not taken.
    pub fn feed(&mut self, piece: &[u8]) -> Result<(), OrNoMemory<BadPacket>>
        ensures split { IsSplit self.new }
        ensures ok { OnOk result (Grows self.old piece.now self.new) }
        ensures sound { OnOk result (fault self.new.rest ≡ None) }
        ensures err { IfErr result (Refuses self.old piece.now self.new) }
    {
        if let Some(bad) = self.bad {
            return Err(OrNoMemory::Fault(bad));
        }
        let bad = take_piece(self.alloc, &mut self.ready, &mut self.rest, piece)?;
        self.bad = bad;
        if let Some(bad) = bad {
            return Err(OrNoMemory::Fault(bad));
        }
        Ok(())
    }

    /// The next whole packet.
    pub fn next(&mut self) -> Option<Packet>
        ensures some { IfSome result (λ packet. self.old.ready ≡ packet ∷ self.new.ready) }
        ensures none { IfNone result ((self.old.ready ≡ []) × (self.new.ready ≡ [])) }
        ensures rest { self.new.rest ≡ self.old.rest }
        ensures split { IsSplit self.old }
        ensures split_after { IsSplit self.new }
    {
        self.ready.pop_front()
    }

    /// How many bytes of the packet begun come after the whole ones; 0 where they are those of no
    /// packet.
    pub fn rest(&self) -> u32
        ensures rest { result ≡ begun self.now.rest }
        ensures split { IsSplit self.now }
    {
        begun_of(&self.rest, self.bad)
    }
}
