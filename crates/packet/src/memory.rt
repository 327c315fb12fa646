//! A source and a sink in memory, for tests: they report their bytes, and fail where they are to.
ghost use Rattle.std.specs.Prelude.{◌≡◌, ◌+◌, ◌<◌, ◌≤◌, ◌++◌, [], length, take, drop};
ghost use Rattle.packet.specs.Memory.{empty_sink, source_of};

use crate::outside::{Sink, Source};
use std::alloc::Global;
use std::marker::Model;
use types_base::Failed;

/// Which calls fail. They are counted from 1.
#[derive(Clone, Copy, Debug, PartialEq, Eq)]
pub enum Failing {
    /// None.
    Never,
    /// This one alone.
    Once(u64),
    /// This one and all after it.
    From(u64),
}

impl Failing {
    fn has(self, call: u64) -> bool {
        match self {
            Failing::Never => false,
            Failing::Once(number) => call == number,
            Failing::From(number) => call >= number,
        }
    }
}

/// Bytes in memory that are taken from the front.
#[derive(Drop)]
pub struct MemorySource {
    bytes: Vec<u8>,
    taken: usize,
    most: usize,
    failing: Failing,
    calls: u64,
    faults: u64,
}

impl Model for MemorySource {
    ghost use Rattle.std.specs.Prelude.{◌<◌, ◌≤◌, drop, vec_len};
    ghost use Rattle.packet.specs.Memory.{Reading};

    ghost Value = { Reading };

    ghost view = { λ s. record { left = drop s.taken s.bytes.items; most = s.most; failing = s.failing; faults = s.faults } };

    ghost invariant = { λ s. (s.taken ≤ vec_len s.bytes) × (0 < s.most) };
}

impl MemorySource {
    /// These bytes, in one read if there is room for them.
    pub fn new(bytes: Vec<u8>) -> MemorySource
        ensures { result ≡ source_of bytes.items }
    {
        MemorySource {
            bytes,
            taken: 0,
            most: usize::MAX,
            failing: Failing::Never,
            calls: 0,
            faults: 0,
        }
    }

    /// The same with at most so many bytes a read.
    pub fn at_most(mut self, most: usize) -> MemorySource
        requires { 0 < most }
        ensures { result ≡ record self { most = most } }
    {
        self.most = most;
        self
    }

    /// The same with reads that fail.
    pub fn failing(mut self, failing: Failing) -> MemorySource
        ensures { result ≡ record self { failing = failing } }
    {
        self.failing = failing;
        self
    }

    /// The bytes that are left.
    pub fn left(&self) -> &[u8]
        ensures { result.now ≡ self.now.left }
    {
        self.bytes.as_slice().split_at(self.taken).1
    }

    /// How often a read failed.
    pub fn faults(&self) -> u64
        ensures { result ≡ self.now.faults }
    {
        self.faults
    }
}

impl Source for MemorySource {
    ghost use Rattle.std.specs.Prelude.{Some};

    ghost left = { λ s. Some s.left };

    ghost faults = { λ s. s.faults };

    fn take(&mut self, into: &mut [u8]) -> Result<usize, Failed> {
        self.calls = self.calls.saturating_add(1);
        if self.failing.has(self.calls) {
            self.faults = self.faults.saturating_add(1);
            return Err(Failed);
        }
        let count = copy_front(&self.bytes, self.taken, self.most, into);
        self.taken += count;
        Ok(count)
    }
}

/// Copies at most so many bytes from a place on to the front of `into`.
fn copy_front(bytes: &[u8], place: usize, most: usize, into: &mut [u8]) -> usize
    requires place { place ≤ length bytes.now }
    requires most { 0 < most }
    requires room { 0 < length into.old }
    ensures within { place + result ≤ length bytes.now }
    ensures bound { result ≤ length into.new }
    ensures front { drop place bytes.now ≡ take result into.new ++ drop (place + result) bytes.now }
    ensures end { result ≡ 0 → drop (place + result) bytes.now ≡ [] }
{
    let left = bytes.split_at(place).1;
    let count = left.len().min(into.len()).min(most);
    into.split_at_mut(count)
        .0
        .copy_from_slice(left.split_at(count).0);
    count
}

/// Bytes in memory, to which others are put at the end.
#[derive(Drop)]
pub struct MemorySink {
    bytes: Vec<u8>,
    most: usize,
    failing: Failing,
    calls: u64,
    faults: u64,
}

impl Model for MemorySink {
    ghost use Rattle.std.specs.Prelude.{◌<◌};
    ghost use Rattle.packet.specs.Memory.{Holding};

    ghost Value = { Holding };

    ghost view = { λ s. record { bytes = s.bytes.items; most = s.most; failing = s.failing; faults = s.faults } };

    ghost invariant = { λ s. 0 < s.most };
}

impl MemorySink {
    /// No bytes so far. Each piece is taken whole.
    pub fn new(alloc: Global) -> MemorySink
        ensures { result ≡ empty_sink }
    {
        MemorySink {
            bytes: Vec::new(alloc),
            most: usize::MAX,
            failing: Failing::Never,
            calls: 0,
            faults: 0,
        }
    }

    /// The same with at most so many bytes a write.
    pub fn at_most(mut self, most: usize) -> MemorySink
        requires { 0 < most }
        ensures { result ≡ record self { most = most } }
    {
        self.most = most;
        self
    }

    /// The same with writes that fail.
    pub fn failing(mut self, failing: Failing) -> MemorySink
        ensures { result ≡ record self { failing = failing } }
    {
        self.failing = failing;
        self
    }

    /// What was put so far.
    pub fn bytes(&self) -> &[u8]
        ensures { result.now ≡ self.now.bytes }
    {
        self.bytes.as_slice()
    }

    /// How often a write failed.
    pub fn faults(&self) -> u64
        ensures { result ≡ self.now.faults }
    {
        self.faults
    }
}

impl Sink for MemorySink {
    ghost use Rattle.std.specs.Prelude.{Some};

    ghost held = { λ s. Some s.bytes };

    ghost faults = { λ s. s.faults };

    /// It also fails, and counts that, where there is no memory for the piece.
    fn put(&mut self, piece: &[u8]) -> Result<usize, Failed> {
        self.calls = self.calls.saturating_add(1);
        let count = piece.len().min(self.most);
        if self.failing.has(self.calls)
            || self
                .bytes
                .extend_from_slice(piece.split_at(count).0)
                .is_err()
        {
            self.faults = self.faults.saturating_add(1);
            return Err(Failed);
        }
        Ok(count)
    }
}
