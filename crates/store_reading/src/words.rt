// Numbers, texts and names in files.
ghost use Rattle.std.specs.Prelude.{◌≡◌, IfOk, decimal};
ghost use Rattle.std.specs.Bool.{Decides};
ghost use Rattle.store_reading.specs.Definition.{IsNameOf, IsTextOf};

use itoa::Buffer;
use std::alloc::Global;
use std::str;
use virt_types::{Name, NoMemory, OrNoMemory, Text};

/// Whether the digits spell this number, as numbers are written.
pub(crate) fn tells(digits: &[u8], number: u64) -> bool
    ensures { Decides result (digits.now ≡ decimal number) }
{
    let mut buffer = Buffer::new();
    digits == buffer.format(number).as_bytes()
}

/// The text that these bytes are.
pub(crate) fn text_of(alloc: Global, bytes: &[u8]) -> Result<Option<Text>, NoMemory>
    ensures { IfOk result (IsTextOf bytes.now) }
{
    match str::from_utf8(bytes) {
        Ok(text) => Ok(Some(Text::copy_of(alloc, text)?)),
        Err(_) => Ok(None),
    }
}

/// The name that these bytes are.
pub(crate) fn name_of(alloc: Global, bytes: &[u8]) -> Result<Option<Name>, NoMemory>
    ensures { IfOk result (IsNameOf bytes.now) }
{
    match Name::read(alloc, bytes) {
        Ok(name) => Ok(Some(name)),
        Err(OrNoMemory::Fault(_)) => Ok(None),
        Err(OrNoMemory::NoMemory) => Err(NoMemory),
    }
}
