// The lines of a check, and the first damaged file among them.
ghost use Rattle.std.specs.Prelude.{◌≡◌, [], IfOk, OnOk};
ghost use Rattle.std.specs.String.{string_bytes};
ghost use Rattle.store_spec.specs.DefinitionFile.{line};
ghost use Rattle.def_keeper.specs.declared.report.Finding.TheVariants as finding;
ghost use Rattle.store_check.specs.Adding.{SaysMore, damaged_after};
ghost use Rattle.store_check.specs.Lines.{is_damage, line_of, said_of};

use def_keeper::Finding;
use itoa::Buffer;
use std::alloc::Global;
use store_spec::BookKind;
use types_base::{Name, NoMemory, Text, TryCopy, Uuid};

/// What is said so far.
#[derive(Drop)]
pub(crate) struct Lines {
    pub text: String,
    pub damaged: Option<Text>,
}

// The line of a good definition.
fn definition_line(
    alloc: Global,
    kind: BookKind,
    name: &Name,
    uuid: Uuid,
) -> Result<String, NoMemory>
    ensures { IfOk result (λ text. string_bytes text ≡ line (said_of [] (finding.Ok kind name.now uuid))) }
{
    let mut buffer = Uuid::encode_buffer();
    let uuid: &str = uuid.hyphenated().encode_lower(&mut buffer);
    let (kind, name) = (kind.word(), name.as_str());
    Ok(format!(in alloc; "{kind} {name} {uuid} ok\n")?)
}

fn damaged_line(alloc: Global, file: &str) -> Result<String, NoMemory>
    ensures { IfOk result (λ text. string_bytes text ≡ line (said_of file.now finding.Damaged)) }
{
    Ok(format!(in alloc; "{file} damaged\n")?)
}

// The line of a boot that was live.
fn running_line(alloc: Global, name: &str, boot: u64) -> Result<String, NoMemory>
    ensures { IfOk result (λ text. string_bytes text ≡ line (said_of [] (finding.Ran name.now boot))) }
{
    let mut buffer = Buffer::new();
    let mut text = String::from_str(alloc, "was running ")?;
    text.push_str(name)?;
    text.push_str(" boot ")?;
    text.push_str(buffer.format(boot))?;
    text.push_str("\n")?;
    Ok(text)
}

fn unread_line(alloc: Global) -> Result<String, NoMemory>
    ensures { IfOk result (λ text. string_bytes text ≡ line (said_of [] finding.Unread)) }
{
    Ok(String::from_str(alloc, "was running ? boot ?\n")?)
}

// The line of a file.
fn line_of(alloc: Global, file: &Text, found: &Finding) -> Result<String, NoMemory>
    ensures { IfOk result (λ text. string_bytes text ≡ line_of (record { file = file.now; found = found.now })) }
{
    match found {
        Finding::Ok { kind, name, uuid } => definition_line(alloc, *kind, name, *uuid),
        Finding::Damaged => damaged_line(alloc, file.as_str()),
        Finding::Ran { name, boot } => running_line(alloc, name.as_str(), *boot),
        Finding::Unread => unread_line(alloc),
    }
}

fn is_damage(found: &Finding) -> bool
    ensures { result ≡ is_damage found.now }
{
    matches!(found, Finding::Damaged)
}

// Keeps the file, where it is the first that is damaged.
fn keep_damaged(damaged: &mut Option<Text>, file: &Text, found: &Finding) -> Result<(), NoMemory>
    ensures { OnOk result (damaged.new ≡ damaged_after damaged.old (record { file = file.now; found = found.now })) }
{
    if damaged.is_none() && is_damage(found) {
        *damaged = Some(file.copy()?);
    }
    Ok(())
}

/// Says what one file more is found to be.
pub(crate) fn say(
    alloc: Global,
    lines: &mut Lines,
    file: &Text,
    found: &Finding,
) -> Result<(), NoMemory>
    ensures { OnOk result (SaysMore (record { file = file.now; found = found.now }) lines.old lines.new) }
{
    let line = line_of(alloc, file, found)?;
    lines.text.push_str(line.as_str())?;
    keep_damaged(&mut lines.damaged, file, found)
}
