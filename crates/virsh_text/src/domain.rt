// What commands for a domain print.
ghost use Rattle.std.specs.Prelude.{◌≡◌, ◌++◌, ◌∷◌, [], IfOk, OnOk, codes};
ghost use Rattle.uuid.specs.Text.{hyphenated_text, lower};
ghost use Rattle.std.specs.String.{string_bytes};
ghost use Rattle.command_spec.specs.Output.{DomainPrints};
ghost use Rattle.command_spec.specs.Printed as spec;
ghost use Rattle.virsh_text.specs.Texts.{IsTextOf};

use crate::action::{action_text, domain_action};
use crate::column::{field, line};
use crate::list::names_text;
use command_spec::{DomainVerb, Flag};
use std::alloc::Global;
use virt_types::{DomainInfo, DomainRef, JobInfo, NoMemory, OpKind, Text, TryCopy, Uuid, Value};

fn enabled(autostart: bool) -> &'static str
    ensures { result.now ≡ spec.enabled autostart }
{
    if autostart { "enable" } else { "disable" }
}

fn kibibytes(alloc: Global, memory: u64) -> Result<String, NoMemory>
    ensures { IfOk result (λ text. string_bytes text ≡ spec.kibibytes memory) }
{
    Ok(format!(in alloc; "{memory} KiB")?)
}

fn push_field(text: &mut String, alloc: Global, label: &str, value: &str) -> Result<(), NoMemory>
    ensures { OnOk result (string_bytes text.new ≡ string_bytes text.old ++ spec.field label.now value.now) }
{
    let field = field(alloc, label, value)?;
    text.push_str(field.as_str())?;
    Ok(())
}

fn push_uuid(text: &mut String, alloc: Global, uuid: Uuid) -> Result<(), NoMemory>
    ensures { OnOk result (string_bytes text.new ≡ string_bytes text.old ++ spec.field (codes "UUID:") (hyphenated_text lower uuid)) }
{
    let mut buffer = Uuid::encode_buffer();
    let uuid: &str = uuid.hyphenated().encode_lower(&mut buffer);
    push_field(text, alloc, "UUID:", uuid)
}

// dominfo
fn info_text(
    alloc: Global,
    domain: &DomainRef,
    info: &DomainInfo,
    autostart: bool,
) -> Result<Text, NoMemory>
    ensures { IfOk result (λ text. text ≡ spec.info_text domain.now info.now autostart) }
{
    let vcpus = info.vcpus.to_string(alloc)?;
    let memory = kibibytes(alloc, info.memory)?;
    let current = kibibytes(alloc, info.current)?;
    let mut text = String::new(alloc);
    push_field(&mut text, alloc, "Name:", domain.name.as_str())?;
    push_uuid(&mut text, alloc, domain.uuid)?;
    push_field(&mut text, alloc, "State:", info.state.word())?;
    push_field(&mut text, alloc, "CPU(s):", vcpus.as_str())?;
    push_field(&mut text, alloc, "Max memory:", memory.as_str())?;
    push_field(&mut text, alloc, "Used memory:", current.as_str())?;
    push_field(&mut text, alloc, "Autostart:", enabled(autostart))?;
    Ok(Text::of(text))
}

/// The job of a domain: kind, phase and rest as numbers.
pub(crate) fn job_text(alloc: Global, job: &JobInfo) -> Result<Text, NoMemory>
    ensures { IfOk result (λ text. text ≡ spec.job_text job.now) }
{
    let kind = job.kind.map_or(0, OpKind::number);
    let (phase, rest) = (job.phase.number(), job.rest);
    Ok(Text::of(format!(in alloc; "{kind} {phase} {rest}\n")?))
}

// dommemstat
fn memory_text(alloc: Global, memory: u64) -> Result<Text, NoMemory>
    ensures { IfOk result (λ text. text ≡ spec.memory_text memory) }
{
    Ok(Text::of(format!(in alloc; "actual {memory}\n")?))
}

// What a command for a domain alone prints, by the one answer after the lookup.
fn one_text(
    alloc: Global,
    verb: DomainVerb,
    option: Option<Flag>,
    domain: &DomainRef,
    answer: &Value,
) -> Result<Option<Text>, NoMemory>
    ensures { IfOk result (IsTextOf (DomainPrints verb option (Value.Domain domain.now) (answer.now ∷ []))) }
{
    match (verb, answer) {
        (DomainVerb::State, Value::Info(info)) => {
            Ok(Some(Text::of(line(alloc, info.as_ref().state.word())?)))
        }
        (DomainVerb::DumpXml, Value::Text(xml)) => Ok(Some(xml.copy()?)),
        (DomainVerb::JobInfo, Value::Job(job)) => Ok(Some(job_text(alloc, job)?)),
        (DomainVerb::MemStat, Value::Memory(memory)) => Ok(Some(memory_text(alloc, *memory)?)),
        (DomainVerb::SnapshotList, Value::Names(names)) => {
            Ok(Some(names_text(alloc, names.as_slice())?))
        }
        (_, Value::Nothing) => {
            let action = domain_action(verb, option);
            Ok(Some(action_text(alloc, "Domain", domain.name.as_str(), action)?))
        }
        _ => Ok(None),
    }
}

/// What a command for a domain alone prints, by what was answered after it was looked up; none where that is no
/// answer to what the command asks.
pub(crate) fn domain_text(
    alloc: Global,
    verb: DomainVerb,
    option: Option<Flag>,
    domain: &DomainRef,
    values: &[Value],
) -> Result<Option<Text>, NoMemory>
    ensures { IfOk result (IsTextOf (DomainPrints verb option (Value.Domain domain.now) values.now)) }
{
    match values {
        [one] => one_text(alloc, verb, option, domain, one),
        [one, other] => match (verb, one, other) {
            (DomainVerb::Info, Value::Info(info), Value::Autostart(autostart)) => {
                Ok(Some(info_text(alloc, domain, info.as_ref(), *autostart)?))
            }
            _ => Ok(None),
        },
        _ => Ok(None),
    }
}
