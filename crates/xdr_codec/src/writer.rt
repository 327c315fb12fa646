// Writing items one after the other.
ghost use Rattle.std.specs.Prelude.{◌≡◌, ◌^◌, ◌<◌, [], ◌++◌, length, vec_len, IfOk, IsUtf8, OnOk, OnErr};
ghost use Rattle.wire_spec.specs.Xdr.{double_word, fixed, integer, opaque, padding, truth, word};

use crate::bytes::padding_length;
use std::alloc::Global;
use std::marker::Model;
use types_base::{Bytes, NoMemory};

/// Writes items one after the other. Contracts see the bytes that were written. A call that finds
/// no memory writes nothing.
#[derive(Drop)]
pub struct Writer {
    bytes: Vec<u8>,
}

impl Model for Writer {
    ghost use Rattle.std.specs.Prelude.{List, ℕ};

    ghost Value = { List ℕ };

    ghost view = { λ w. w.bytes.items };
}

// Appends a head, the bytes and their padding, or nothing.
fn put_padded(written: &mut Vec<u8>, head: &[u8], bytes: &[u8]) -> Result<(), NoMemory>
    requires { length head.now < 2 ^ 32 }
    ensures ok { OnOk result (written.new.items ≡ written.old.items ++ (head.now ++ fixed bytes.now)) }
    ensures err { OnErr result (written.new.items ≡ written.old.items) }
{
    let padding = padding_length(bytes.len());
    written.reserve(head.len() + bytes.len() + padding)?;
    written.extend_from_slice(head)?;
    written.extend_from_slice(bytes)?;
    written.resize(written.len() + padding, 0)?;
    Ok(())
}

impl Writer {
    /// A writer that has written nothing.
    pub fn new(alloc: Global) -> Writer
        ensures { result ≡ [] }
    {
        Writer {
            bytes: Vec::new(alloc),
        }
    }

    /// A writer that has written nothing, with memory for this many bytes set aside.
    pub fn with_room(alloc: Global, room: usize) -> Result<Writer, NoMemory>
        ensures { IfOk result (λ writer. writer ≡ []) }
    {
        Ok(Writer {
            bytes: Vec::with_capacity(alloc, room)?,
        })
    }

    /// All that was written.
    pub fn finish(self) -> Bytes
        ensures { result ≡ self }
    {
        Bytes::of(self.bytes)
    }

    /// Appends an unsigned integer (RFC 4506, 4.2).
    #[tactic(auto, unfolding(wire_spec::specs::Xdr::word))]
    pub fn put_u32(&mut self, v: u32) -> Result<(), NoMemory>
        ensures ok { OnOk result (self.new ≡ self.old ++ word v) }
        ensures err { OnErr result (self.new ≡ self.old) }
    {
        self.bytes.extend_from_slice(&v.to_be_bytes())?;
        Ok(())
    }

    /// Appends an integer (4.1).
    pub fn put_i32(&mut self, v: i32) -> Result<(), NoMemory>
        ensures ok { OnOk result (self.new ≡ self.old ++ integer v) }
        ensures err { OnErr result (self.new ≡ self.old) }
    {
        self.put_u32(v.cast_unsigned())
    }

    /// Appends an unsigned hyper integer (4.5).
    #[tactic(auto, unfolding(wire_spec::specs::Xdr::double_word))]
    pub fn put_u64(&mut self, v: u64) -> Result<(), NoMemory>
        ensures ok { OnOk result (self.new ≡ self.old ++ double_word v) }
        ensures err { OnErr result (self.new ≡ self.old) }
    {
        self.bytes.extend_from_slice(&v.to_be_bytes())?;
        Ok(())
    }

    /// Appends opaque data whose length both sides know (4.9).
    pub fn put_fixed(&mut self, v: &[u8]) -> Result<(), NoMemory>
        ensures ok { OnOk result (self.new ≡ self.old ++ fixed v.now) }
        ensures err { OnErr result (self.new ≡ self.old) }
    {
        put_padded(&mut self.bytes, &[], v)
    }

    /// Appends opaque data after their length (4.10).
    #[tactic(auto, unfolding(wire_spec::specs::Xdr::word))]
    pub fn put_opaque(&mut self, v: &[u8]) -> Result<(), NoMemory>
        requires { length v.now < 2 ^ 32 }
        ensures ok { OnOk result (self.new ≡ self.old ++ opaque v.now) }
        ensures err { OnErr result (self.new ≡ self.old) }
    {
        put_padded(&mut self.bytes, &(v.len() as u32).to_be_bytes(), v)
    }

    /// Appends a string (4.11), which is UTF-8.
    pub fn put_string(&mut self, v: &[u8]) -> Result<(), NoMemory>
        requires bound { length v.now < 2 ^ 32 }
        requires text { IsUtf8 v.now }
        ensures ok { OnOk result (self.new ≡ self.old ++ opaque v.now) }
        ensures err { OnErr result (self.new ≡ self.old) }
    {
        self.put_opaque(v)
    }

    /// Appends the boolean before optional data (4.19): whether the data follow.
    pub fn put_optional(&mut self, there: bool) -> Result<(), NoMemory>
        ensures ok { OnOk result (self.new ≡ self.old ++ truth there) }
        ensures err { OnErr result (self.new ≡ self.old) }
    {
        self.put_u32(if there { 1 } else { 0 })
    }
}
