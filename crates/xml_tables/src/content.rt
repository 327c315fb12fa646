// What a value may be, and in what way one that may not be is at fault.
ghost use Rattle.std.specs.Prelude.{◌≡◌, ◌≢◌, IfOk, is_none, is_some};
ghost use Rattle.text_spec.specs.Content as spec;
ghost use Rattle.text_spec.specs.GuestScript.{entries_of as script_entries};
ghost use Rattle.text_spec.specs.Look.{attribute_of as spec_attribute_of};
ghost use Rattle.text_spec.specs.Tree.{seen};
ghost use Rattle.text_spec.specs.Units.{kibibytes_of};
ghost use Rattle.uuid.specs.Text.{parsed};
ghost use Rattle.types_base.specs.Name.{bad_place};

use crate::look::attribute_of;
use crate::script::entries_of;
use std::alloc::Global;
use text_spec::{AttributeName, Content, DefKind, MOST_VCPUS, SizeFault, Tree};
use types_base::{Name, NoMemory, OrNoMemory, Text};
use uuid::Uuid;
use xml_words::{
    boot_device_of, crash_action_of, disk_device_of, disk_type_of, domain_type_of,
    interface_type_of, lifecycle_action_of, mac_of, read_kibibytes, read_number,
};

fn bad_unless(good: bool) -> Option<DefKind>
    ensures { result ≡ spec.bad_unless good }
{
    if good { None } else { Some(DefKind::BadValue) }
}

fn size_fault(size: Result<u64, SizeFault>) -> Option<DefKind>
    ensures { result ≡ spec.size_fault size }
{
    match size {
        Ok(_) => None,
        Err(SizeFault::BadValue) => Some(DefKind::BadValue),
        Err(SizeFault::Range) => Some(DefKind::Range),
    }
}

fn count_fault(least: u64, most: u64, number: Option<u64>) -> Option<DefKind>
    ensures { result ≡ spec.count_fault least most number }
{
    match number {
        None => Some(DefKind::BadValue),
        Some(number) if least <= number && number <= most => None,
        Some(_) => Some(DefKind::Range),
    }
}

/// The size of memory that an element of this text is.
pub fn memory_size(element: &Tree, text: &Text) -> Result<u64, SizeFault>
    ensures { result ≡ kibibytes_of text.now (spec_attribute_of AttributeName.Unit (seen element.now)) }
{
    match attribute_of(AttributeName::Unit, element) {
        Some(unit) => read_kibibytes(text.as_str(), Some(unit.as_str())),
        None => read_kibibytes(text.as_str(), None),
    }
}

/// The number of processors that an element's text is.
#[tactic(auto, using(text_spec::proofs::Seen::text_seen))]
fn processors_of(element: &Tree) -> u64
    ensures { result ≡ spec.processors_of (seen element.now) }
{
    read_number(element.text.as_str()).unwrap_or(1)
}

fn is_name(alloc: Global, text: &Text) -> Result<bool, NoMemory>
    ensures { IfOk result (λ good. good ≡ is_none (bad_place text.now)) }
{
    match Name::read(alloc, text.as_bytes()) {
        Ok(_) => Ok(true),
        Err(OrNoMemory::Fault(_)) => Ok(false),
        Err(OrNoMemory::NoMemory) => Err(NoMemory),
    }
}

#[tactic(auto, using(crate::proofs::Parsed::is_ok_parsed))]
fn is_uuid(text: &Text) -> bool
    ensures { result ≡ is_some (parsed text.now) }
{
    Uuid::parse_str(text.as_str()).is_ok()
}

fn is_script(alloc: Global, text: &Text) -> Result<bool, NoMemory>
    ensures { IfOk result (λ good. good ≡ is_some (script_entries text.now)) }
{
    Ok(entries_of(alloc, text.as_bytes())?.is_some())
}

/// The fault of a value whose test takes no memory.
#[tactic(auto, unfolding(text_spec::specs::Content::content_fault))]
fn plain_fault(content: Content, element: &Tree, value: &Text) -> Option<DefKind>
    requires name { content ≢ Content.Name }
    requires script { content ≢ Content.Script }
    ensures { result ≡ spec.content_fault content (seen element.now) value.now }
{
    match content {
        Content::Text | Content::Name | Content::Script => None,
        Content::Filled => bad_unless(!value.is_empty()),
        Content::Uuid => bad_unless(is_uuid(value)),
        Content::Mac => bad_unless(mac_of(value.as_bytes()).is_some()),
        Content::Memory => size_fault(memory_size(element, value)),
        Content::Vcpus => count_fault(1, MOST_VCPUS as u64, read_number(value.as_str())),
        Content::CurrentVcpus => {
            count_fault(1, processors_of(element), read_number(value.as_str()))
        }
        Content::DomainType => bad_unless(domain_type_of(value.as_str()).is_some()),
        Content::BootDevice => bad_unless(boot_device_of(value.as_str()).is_some()),
        Content::LifecycleAction => bad_unless(lifecycle_action_of(value.as_str()).is_some()),
        Content::CrashAction => bad_unless(crash_action_of(value.as_str()).is_some()),
        Content::DiskType => bad_unless(disk_type_of(value.as_str()).is_some()),
        Content::DiskDevice => bad_unless(disk_device_of(value.as_str()).is_some()),
        Content::InterfaceType => bad_unless(interface_type_of(value.as_str()).is_some()),
    }
}

/// The fault of a value in an element.
#[tactic(auto, unfolding(text_spec::specs::Content::content_fault))]
pub(crate) fn content_fault(
    alloc: Global,
    content: Content,
    element: &Tree,
    value: &Text,
) -> Result<Option<DefKind>, NoMemory>
    ensures { IfOk result (λ found. found
        ≡ spec.content_fault content (seen element.now) value.now) }
{
    match content {
        Content::Name => Ok(bad_unless(is_name(alloc, value)?)),
        Content::Script => Ok(bad_unless(is_script(alloc, value)?)),
        _ => Ok(plain_fault(content, element, value)),
    }
}
