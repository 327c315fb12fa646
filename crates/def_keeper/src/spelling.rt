// The names and bytes of files.
ghost use Rattle.std.specs.Prelude.{◌≡◌, ◌++◌, IfOk, OnOk, codes, decimal, string_bytes};
ghost use Rattle.store_spec.specs.declared.version.Version.TheVariants as version;
ghost use Rattle.store_spec.specs.DefinitionFile.{definition_bytes, first_line as the_first_line, heading, line, yes_or_no};
ghost use Rattle.store_spec.specs.FileNames as name;
ghost use Rattle.store_spec.specs.StatusFile.{status_bytes};
ghost use Rattle.virt_types.specs.Numbers.{job_number};

use itoa::Buffer;
use std::alloc::Global;
use store_spec::{BookKind, Entry};
use virt_types::{Bytes, Name, NoMemory, OpKind, Status, Text, Uuid};

// WORD-UUID and an ending.
#[tactic(auto, unfolding(store_spec::specs::FileNames::file_name))]
fn file_name(alloc: Global, word: &str, uuid: Uuid, ending: &str) -> Result<Text, NoMemory>
    ensures { IfOk result (λ t. t ≡ name.file_name word.now uuid ending.now) }
{
    let mut buffer = Uuid::encode_buffer();
    let mut text = String::from_str(alloc, word)?;
    text.push_str("-")?;
    text.push_str(uuid.hyphenated().encode_lower(&mut buffer))?;
    text.push_str(ending)?;
    Ok(Text::of(text))
}

/// The name of a definition's file.
pub(crate) fn definition_name(alloc: Global, kind: BookKind, uuid: Uuid) -> Result<Text, NoMemory>
    ensures { IfOk result (λ t. t ≡ name.definition_name kind uuid) }
{
    file_name(alloc, kind.word(), uuid, ".def")
}

/// The name of its draft.
pub(crate) fn definition_draft(alloc: Global, kind: BookKind, uuid: Uuid) -> Result<Text, NoMemory>
    ensures { IfOk result (λ t. t ≡ name.definition_draft kind uuid) }
{
    file_name(alloc, kind.word(), uuid, ".tmp")
}

// The word for a flag.
fn yes_or_no(flag: bool) -> &'static str
    ensures { result.now ≡ yes_or_no flag }
{
    if flag { "yes" } else { "no" }
}

// A first line: what gives the version, the flag and the name.
fn first_line(
    alloc: Global,
    front: &[u8],
    autostart: bool,
    name: &Name,
) -> Result<Vec<u8>, NoMemory>
    ensures { IfOk result (λ bytes. bytes.items ≡ the_first_line front.now autostart name.now) }
{
    let mut bytes = Vec::from_slice(alloc, front)?;
    bytes.extend_from_slice(yes_or_no(autostart).as_bytes())?;
    bytes.extend_from_slice(b" name=".as_slice())?;
    bytes.extend_from_slice(name.as_bytes())?;
    bytes.push(b'\n')?;
    Ok(bytes)
}

// Puts a line that names a value.
fn put_line(bytes: &mut Vec<u8>, label: &[u8], value: &[u8]) -> Result<(), NoMemory>
    ensures { OnOk result (bytes.new.items ≡ bytes.old.items ++ line (label.now ++ value.now)) }
{
    bytes.extend_from_slice(label)?;
    bytes.extend_from_slice(value)?;
    bytes.push(b'\n')?;
    Ok(())
}

// The lines before the text, of version 2.
fn heading(alloc: Global, entry: &Entry) -> Result<Vec<u8>, NoMemory>
    ensures { IfOk result (λ bytes. bytes.items ≡ heading version.Two entry.now) }
{
    let mut digits = Buffer::new();
    let mut bytes = first_line(
        alloc,
        b"def 2 autostart=".as_slice(),
        entry.autostart,
        &entry.name,
    )?;
    put_line(&mut bytes, b"title=".as_slice(), entry.title.as_bytes())?;
    let length = digits.format(entry.text.len());
    put_line(&mut bytes, b"length=".as_slice(), length.as_bytes())?;
    Ok(bytes)
}

/// The bytes of a definition's file, of version 2.
#[tactic(auto, unfolding(store_spec::specs::DefinitionFile::definition_bytes))]
pub(crate) fn definition_bytes(alloc: Global, entry: &Entry) -> Result<Bytes, NoMemory>
    ensures { IfOk result (λ b. b ≡ definition_bytes version.Two entry.now) }
{
    let mut bytes = heading(alloc, entry)?;
    bytes.extend_from_slice(entry.text.as_bytes())?;
    Ok(Bytes::of(bytes))
}

/// The name of a status file.
pub(crate) fn status_name(alloc: Global, uuid: Uuid) -> Result<Text, NoMemory>
    ensures { IfOk result (λ t. t ≡ name.status_name uuid) }
{
    file_name(alloc, "run", uuid, ".sta")
}

/// The name of its draft.
pub(crate) fn status_draft(alloc: Global, uuid: Uuid) -> Result<Text, NoMemory>
    ensures { IfOk result (λ t. t ≡ name.status_draft uuid) }
{
    file_name(alloc, "run", uuid, ".tmp")
}

// Puts a number after its label.
fn put_number(bytes: &mut Vec<u8>, label: &[u8], number: u64) -> Result<(), NoMemory>
    ensures { OnOk result (bytes.new.items ≡ bytes.old.items ++ label.now ++ decimal number) }
{
    let mut digits = Buffer::new();
    bytes.extend_from_slice(label)?;
    bytes.extend_from_slice(digits.format(number).as_bytes())?;
    Ok(())
}

// The number of an operation, which may be none.
fn job_number(op: Option<OpKind>) -> u32
    ensures { result ≡ job_number op }
{
    match op {
        Some(kind) => kind.number(),
        None => 0,
    }
}

/// The bytes of a status file.
#[tactic(auto, unfolding(store_spec::specs::StatusFile::status_bytes))]
pub(crate) fn status_bytes(alloc: Global, status: &Status) -> Result<Bytes, NoMemory>
    ensures { IfOk result (λ b. b ≡ status_bytes status.now) }
{
    let mut bytes = Vec::new(alloc);
    put_number(&mut bytes, b"run 1 boot=".as_slice(), status.boot)?;
    put_number(
        &mut bytes,
        b" state=".as_slice(),
        status.state.number() as u64,
    )?;
    put_number(&mut bytes, b" op=".as_slice(), job_number(status.op) as u64)?;
    put_number(
        &mut bytes,
        b" phase=".as_slice(),
        status.phase.number() as u64,
    )?;
    put_line(&mut bytes, b" name=".as_slice(), status.name.as_bytes())?;
    Ok(Bytes::of(bytes))
}
