// The files of definitions, read.
ghost use Rattle.std.specs.Prelude.{◌≡◌, IfOk, bytes_eq, codes, decimal, length};
ghost use Rattle.store_spec.specs.declared.version.Version.TheVariants as version;
ghost use Rattle.store_reading.specs.Definition.{IsMadeOf, IsReadAs, ReadsAfter, ReadsAs};
ghost use Rattle.store_reading.specs.Lines.{HasFirst, HasLine};

use crate::lines::{FirstLine, first_line, labelled};
use crate::words::{name_of, tells, text_of};
use std::alloc::Global;
use store_spec::{Entry, Version};
use virt_types::{MOST_TEXT_BYTES, NoMemory};

/// What a definition's file holds, and its version.
#[derive(Drop)]
pub struct ReadDefinition {
    /// The version.
    pub version: Version,
    /// The entry.
    pub entry: Entry,
}

// The first line of a file of version 1.
fn first_of_one(bytes: &[u8]) -> Option<FirstLine<'_>>
    ensures { HasFirst (codes "def 1 autostart=") bytes.now result }
{
    first_line(b"def 1 autostart=".as_slice(), bytes)
}

// The first line of a file of version 2.
fn first_of_two(bytes: &[u8]) -> Option<FirstLine<'_>>
    ensures { HasFirst (codes "def 2 autostart=") bytes.now result }
{
    first_line(b"def 2 autostart=".as_slice(), bytes)
}

// The line with the title.
fn title_line(bytes: &[u8]) -> Option<(&[u8], &[u8])>
    ensures { HasLine (codes "title=") bytes.now result }
{
    labelled(b"title=".as_slice(), bytes)
}

// The line with the length of the text.
fn length_line(bytes: &[u8]) -> Option<(&[u8], &[u8])>
    ensures { HasLine (codes "length=") bytes.now result }
{
    labelled(b"length=".as_slice(), bytes)
}

// The entry with these parts, where a file may hold it.
fn entry_of(
    alloc: Global,
    autostart: bool,
    name: &[u8],
    title: &[u8],
    text: &[u8],
) -> Result<Option<Entry>, NoMemory>
    ensures { IfOk result (IsMadeOf autostart name.now title.now text.now) }
{
    if text.len() > MOST_TEXT_BYTES {
        return Ok(None);
    }
    let Some(name) = name_of(alloc, name)? else {
        return Ok(None);
    };
    let Some(title) = text_of(alloc, title)? else {
        return Ok(None);
    };
    let Some(text) = text_of(alloc, text)? else {
        return Ok(None);
    };
    Ok(Some(Entry {
        name,
        autostart,
        title,
        text,
    }))
}

// The entry of a file of version 1.
fn read_one(alloc: Global, bytes: &[u8]) -> Result<Option<Entry>, NoMemory>
    ensures { IfOk result (ReadsAs version.One bytes.now) }
{
    match first_of_one(bytes) {
        Some(first) => entry_of(
            alloc,
            first.autostart,
            first.name,
            b"".as_slice(),
            first.rest,
        ),
        None => Ok(None),
    }
}

// The entry of version 2 that goes on so, after a first line with this flag and name.
fn read_after(
    alloc: Global,
    autostart: bool,
    name: &[u8],
    rest: &[u8],
) -> Result<Option<Entry>, NoMemory>
    ensures { IfOk result (ReadsAfter autostart name.now rest.now) }
{
    match title_line(rest) {
        Some((title, rest)) => match length_line(rest) {
            Some((digits, text)) => {
                if tells(digits, text.len() as u64) {
                    return entry_of(alloc, autostart, name, title, text);
                }
                Ok(None)
            }
            None => Ok(None),
        },
        None => Ok(None),
    }
}

// The entry of a file of version 2.
fn read_two(alloc: Global, bytes: &[u8]) -> Result<Option<Entry>, NoMemory>
    ensures { IfOk result (ReadsAs version.Two bytes.now) }
{
    match first_of_two(bytes) {
        Some(first) => read_after(alloc, first.autostart, first.name, first.rest),
        None => Ok(None),
    }
}

/// The definition that a file of these bytes holds; none where it is in neither version.
pub fn read_definition(alloc: Global, bytes: &[u8]) -> Result<Option<ReadDefinition>, NoMemory>
    ensures { IfOk result (IsReadAs bytes.now) }
{
    if let Some(entry) = read_one(alloc, bytes)? {
        return Ok(Some(ReadDefinition {
            version: Version::One,
            entry,
        }));
    }
    match read_two(alloc, bytes)? {
        Some(entry) => Ok(Some(ReadDefinition {
            version: Version::Two,
            entry,
        })),
        None => Ok(None),
    }
}
