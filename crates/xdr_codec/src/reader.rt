// Reading items from the front of a payload.
ghost use Rattle.std.specs.Prelude.{◌≡◌, ◌+◌, ◌≤◌, ◌<◌, ◌-◌, ◌^◌, [], length, IsOk, IfErr, ◌↔◌};
ghost use Rattle.wire_spec.specs.declared.fault.XdrFault.TheVariants.{Extra};
ghost use Rattle.wire_spec.specs.Xdr.{IsDoubleWord, IsInteger, IsString, IsTruth, IsWord, double_word, fixed, integer, opaque, truth, word};
ghost use Rattle.wire_spec.specs.XdrAnswer.{Answers, AnswersOrNoMemory, Reads, ReadsOrNoMemory};
ghost use Rattle.wire_spec.specs.XdrReading.{all_of, first_double_word, first_fixed, first_integer, first_opaque, first_string, first_truth, first_word};
ghost use Rattle.xdr_codec.specs.Rest.{Copies, Keeps};

use crate::rest::Rest;
use crate::{bytes, number};
use std::alloc::Global;
use std::marker::Model;
use types_base::{Bytes, OrNoMemory, Text};
use wire_spec::XdrFault;

/// Reads the items of a payload from its front. Contracts see the bytes that are left, and the
/// place of the first of them, counted from the payload's first byte. A call that answers an error
/// takes nothing.
#[derive(Drop)]
pub struct Reader<'a> {
    rest: Rest<'a>,
}

impl<'a> Model for Reader<'a> {
    ghost use Rattle.wire_spec.specs.XdrReading.{Left};

    ghost Value = { Left };

    ghost view = { λ r. record { place = r.rest.place; bytes = r.rest.bytes.now } };
}

// Goes to the place after what a step read; after an error, stays where it was.
fn keep<'a, T, E>(rest: &mut Rest<'a>, step: Result<(T, Rest<'a>), E>) -> Result<T, E>
    ensures { Keeps rest.old step.entry result rest.new }
{
    let (value, behind) = step?;
    *rest = behind;
    Ok(value)
}

// Copies the bytes that a step found.
fn copied<'a>(
    alloc: Global,
    step: Result<(&'a [u8], Rest<'a>), XdrFault>,
) -> Result<(Bytes, Rest<'a>), OrNoMemory<XdrFault>>
    ensures { Copies step.entry result }
{
    match step {
        Ok((bytes, rest)) => Ok((Bytes::copy_of(alloc, bytes)?, rest)),
        Err(fault) => Err(OrNoMemory::Fault(fault)),
    }
}

// Copies the text that a step found.
fn copied_text<'a>(
    alloc: Global,
    step: Result<(&'a str, Rest<'a>), XdrFault>,
) -> Result<(Text, Rest<'a>), OrNoMemory<XdrFault>>
    ensures { Copies step.entry result }
{
    match step {
        Ok((text, rest)) => Ok((Text::copy_of(alloc, text)?, rest)),
        Err(fault) => Err(OrNoMemory::Fault(fault)),
    }
}

impl<'a> Reader<'a> {
    /// A reader of the whole payload.
    pub fn new(bytes: &'a [u8]) -> Reader<'a>
        ensures { result ≡ all_of bytes.now }
    {
        Reader {
            rest: Rest { bytes, place: 0 },
        }
    }

    /// The place of the first byte that is left.
    pub fn place(&self) -> u64
        ensures place { result ≡ self.now.place }
        ensures fits { self.now.place + length self.now.bytes < 2 ^ 64 }
    {
        self.rest.place
    }

    /// Takes an unsigned integer (RFC 4506, 4.2).
    pub fn take_u32(&mut self) -> Result<u32, XdrFault>
        ensures value { Answers IsWord word self.old result self.new }
        ensures fault { Reads first_word self.old result self.new }
    {
        let step = number::word(self.rest);
        keep(&mut self.rest, step)
    }

    /// Takes an integer (4.1).
    pub fn take_i32(&mut self) -> Result<i32, XdrFault>
        ensures value { Answers IsInteger integer self.old result self.new }
        ensures fault { Reads first_integer self.old result self.new }
    {
        let step = number::integer(self.rest);
        keep(&mut self.rest, step)
    }

    /// Takes an unsigned hyper integer (4.5).
    pub fn take_u64(&mut self) -> Result<u64, XdrFault>
        ensures value { Answers IsDoubleWord double_word self.old result self.new }
        ensures fault { Reads first_double_word self.old result self.new }
    {
        let step = number::double_word(self.rest);
        keep(&mut self.rest, step)
    }

    /// Takes the boolean before optional data (4.19): whether the data follow.
    pub fn take_optional(&mut self) -> Result<bool, XdrFault>
        ensures value { Answers IsTruth truth self.old result self.new }
        ensures fault { Reads first_truth self.old result self.new }
    {
        let step = number::truth(self.rest);
        keep(&mut self.rest, step)
    }

    /// Takes opaque data of `size` bytes (4.9).
    pub fn take_fixed(&mut self, alloc: Global, size: u32) -> Result<Bytes, OrNoMemory<XdrFault>>
        ensures value { AnswersOrNoMemory (λ v. length v ≡ size) fixed self.old result self.new }
        ensures fault { ReadsOrNoMemory (first_fixed size) self.old result self.new }
    {
        let found = bytes::fixed(size, self.rest);
        let step = copied(alloc, found);
        keep(&mut self.rest, step)
    }

    /// Takes opaque data of at most `most` bytes after a length word (4.10).
    pub fn take_opaque_within(
        &mut self,
        alloc: Global,
        most: u32,
    ) -> Result<Bytes, OrNoMemory<XdrFault>>
        ensures value { AnswersOrNoMemory (λ v. length v ≤ most) opaque self.old result self.new }
        ensures fault { ReadsOrNoMemory (first_opaque most) self.old result self.new }
    {
        let found = bytes::opaque(most, self.rest);
        let step = copied(alloc, found);
        keep(&mut self.rest, step)
    }

    /// Takes a string of at most `most` bytes (4.11), which are UTF-8, as the text that it is.
    pub fn take_text(&mut self, alloc: Global, most: u32) -> Result<Text, OrNoMemory<XdrFault>>
        ensures value { AnswersOrNoMemory (IsString most) opaque self.old result self.new }
        ensures fault { ReadsOrNoMemory (first_string most) self.old result self.new }
    {
        let found = bytes::string(most, self.rest);
        let step = copied_text(alloc, found);
        keep(&mut self.rest, step)
    }

    /// That nothing is left.
    pub fn end(&self) -> Result<(), XdrFault>
        ensures value { IsOk result ↔ (self.now.bytes ≡ []) }
        ensures fault { IfErr result (λ f. f ≡ Extra self.now.place) }
    {
        if self.rest.bytes.is_empty() {
            Ok(())
        } else {
            Err(XdrFault::Extra {
                at: self.rest.place,
            })
        }
    }
}
