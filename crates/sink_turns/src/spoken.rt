ghost use Rattle.std.specs.Prelude.{◌≡◌, ◌≤◌, ◌++◌, ◌∷◌, [], false, ℕ, length, IfOk, IfErr, OnErr, OnOk};
ghost use Rattle.sink_turns.specs.Closing.{Ends};
ghost use Rattle.sink_turns.specs.Saying.{Adds, Flushes, Puts, Says, does_wait, opened};
ghost use Rattle.sink_turns.specs.Text.{text};
ghost use Rattle.sink_turns.specs.declared.mark.Deed.TheVariants.{Said};
ghost use Rattle.sink_turns.specs.declared.spoken.TheConstants.{MOST_WAITING};
ghost use Rattle.sink_turns.specs.declared.spoken.Unsaid.TheVariants as unsaid;

use crate::mark::{Noted, note_cut, note_put, note_said};
use crate::message::Message;
use crate::put::{put_all, put_with};
use packet::Sink;
use std::alloc::Global;
use std::marker::Model;
use std::snapshot::Snapshot;
use types_base::{Failed, NoMemory};

/// How many bytes wait at most, to be put in one piece.
pub const MOST_WAITING: usize = 16_384;

/// Why a message was not said, or not put whole.
#[derive(Clone, Copy, Debug, PartialEq, Eq, Drop)]
pub enum Unsaid {
    /// The sink failed, now or before.
    SinkFault,
    NoMemory,
}

/// A sink, and the messages that were said. Contracts see these, what the sink was before the first
/// of them, and what it holds now.
#[derive(Drop)]
pub struct Out<K: Sink> {
    sink: K,
    start: Snapshot<K>,
    marks: Vec<Noted>,
    // What waits to be put.
    waits: Vec<u8>,
    is_cut: bool,
}

impl<K: Sink> Model for Out<K> {
    ghost use Rattle.sink_turns.specs.Keeping.{marks_of};
    ghost use Rattle.sink_turns.specs.Saying.{Keeps, Spoken};

    ghost Value = { Spoken };

    ghost view = { λ o. record { start = record { held = K.held o.start.value; faults = K.faults o.start.value }; marks = marks_of o.marks.items; held = K.held o.sink; faults = K.faults o.sink } };

    ghost invariant = { λ o. Keeps (record { start = record { held = K.held o.start.value; faults = K.faults o.start.value }; marks = marks_of o.marks.items; held = K.held o.sink; faults = K.faults o.sink }) o.waits.items o.is_cut };
}

impl<K: Sink + Drop> Out<K> {
    /// A sink to which nothing was said. Where there is no memory it comes back.
    pub fn new(alloc: Global, sink: K) -> Result<Out<K>, (K, NoMemory)>
        ensures ok { IfOk result (λ out. out ≡ opened (K.held sink) (K.faults sink)) }
        ensures err { IfErr result (λ e. e.0 ≡ sink) }
    {
        let Ok(waits) = Vec::with_capacity(alloc, MOST_WAITING) else {
            return Err((sink, NoMemory));
        };
        Ok(Out {
            start: Snapshot::of(&sink),
            sink,
            marks: Vec::new(alloc),
            waits,
            is_cut: false,
        })
    }

    /// Says a message, in the turn of the pass of this number. With `more` its sender has more to
    /// say: the message waits, where there is room. Else it is put, and before it all that waits.
    pub fn say(&mut self, message: &Message, more: bool) -> Result<(), Unsaid>
        ghost number: { ℕ }
        ensures { Says number message.now more result self.old self.new }
    {
        if self.has_failed() {
            return Err(Unsaid::SinkFault);
        }
        if self.does_wait(message, more) {
            return self.leave(message);
        }
        self.put(message)
    }

    fn has_failed(&self) -> bool
        ensures { result ≡ (text self.now.marks).cut }
    {
        self.is_cut
    }

    // Whether a message waits: its sender has more to say, and there is room.
    fn does_wait(&self, message: &Message, more: bool) -> bool
        requires { (text self.now.marks).cut ≡ false }
        ensures { result ≡ does_wait (text self.now.marks) message.now more }
    {
        more && message.bytes.len() <= MOST_WAITING - self.waits.len()
    }

    // Leaves a message behind those that wait.
    fn leave(&mut self, message: &Message) -> Result<(), Unsaid>
        ghost number: { ℕ }
        requires sound { (text self.old.marks).cut ≡ false }
        requires room { length ((text self.old.marks).waits ++ message.now.bytes) ≤ MOST_WAITING }
        ensures ok { OnOk result (Adds number (Said message.now ∷ []) self.old self.new) }
        ensures err { IfErr result (λ why. why ≡ unsaid.NoMemory) }
        ensures same { OnErr result (self.new ≡ self.old) }
    {
        let Ok(()) = self.marks.reserve(1) else {
            return Err(Unsaid::NoMemory);
        };
        let Ok(()) = self.waits.extend_from_slice(message.bytes.as_slice()) else {
            return Err(Unsaid::NoMemory);
        };
        let said = note_said(message);
        self.marks.push_reserved(said);
        Ok(())
    }

    // Puts what waits and then the message.
    fn put(&mut self, message: &Message) -> Result<(), Unsaid>
        ghost number: { ℕ }
        requires { (text self.old.marks).cut ≡ false }
        ensures { Puts number message.now result self.old self.new }
    {
        let Ok(()) = self.marks.reserve(2) else {
            return Err(Unsaid::NoMemory);
        };
        let bytes = message.bytes.as_slice();
        let put = put_with(&mut self.sink, &mut self.waits, bytes, MOST_WAITING);
        let said = note_said(message);
        self.marks.push_reserved(said);
        match put {
            Ok(()) => {
                let put = note_put();
                self.marks.push_reserved(put);
                Ok(())
            }
            Err(count) => {
                let cut = note_cut(count);
                self.marks.push_reserved(cut);
                self.is_cut = true;
                Err(Unsaid::SinkFault)
            }
        }
    }

    /// Puts all that waits, in the turn of the pass of this number.
    pub fn flush(&mut self) -> Result<(), Unsaid>
        ghost number: { ℕ }
        ensures { Flushes number result self.old self.new }
    {
        if self.is_cut {
            return Err(Unsaid::SinkFault);
        }
        if self.waits.is_empty() {
            return Ok(());
        }
        let Ok(()) = self.marks.reserve(1) else {
            return Err(Unsaid::NoMemory);
        };
        match put_all(&mut self.sink, &self.waits) {
            Ok(()) => {
                self.waits.clear();
                let put = note_put();
                self.marks.push_reserved(put);
                Ok(())
            }
            Err(count) => {
                let cut = note_cut(count);
                self.marks.push_reserved(cut);
                self.is_cut = true;
                Err(Unsaid::SinkFault)
            }
        }
    }

    /// How many marks there are.
    pub(crate) fn len(&self) -> usize
        ensures { result ≡ length self.now.marks }
    {
        self.marks.len()
    }

    /// Gives the sink back as it is, without what waits.
    pub(crate) fn into_sink(self) -> K
        ensures held { K.held result ≡ self.held }
        ensures faults { K.faults result ≡ self.faults }
    {
        self.sink
    }

    /// Puts all that waits, and gives the sink back. Where it failed, then or before, a front of
    /// all messages was put, and not all.
    pub fn end(self) -> (K, Result<(), Failed>)
        ensures { Ends self (K.held result.0) (K.faults result.0) result.1 }
    {
        let Out {
            mut sink,
            start: _,
            marks: _,
            waits,
            is_cut,
        } = self;
        if is_cut {
            return (sink, Err(Failed));
        }
        match put_all(&mut sink, &waits) {
            Ok(()) => (sink, Ok(())),
            Err(_) => (sink, Err(Failed)),
        }
    }
}
