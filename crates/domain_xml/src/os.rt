// What a guest is, and what it is booted from.
ghost use Rattle.std.specs.Prelude.{◌≡◌, [], IfOk, filter, map, unwrap_or};
ghost use Rattle.std.specs.List.{filter_map};
ghost use Rattle.text_spec.specs.DomainValue as spec;
ghost use Rattle.text_spec.specs.Look.{is_element as is_named, elements_at, all_of};
ghost use Rattle.text_spec.specs.Tree.{seen};

use std::alloc::Global;
use text_spec::{AttributeName, ElementName, Place, Source, Tree};
use types_base::{BootDevice, BootDeviceList, NoMemory, Os, Text, TryCopy, both};
use xml_tables::{attribute_of, boot_device_of, copied_value, first_of, is_element, value_at};

const TYPE: Place = Place::Inside(ElementName::Os, ElementName::Type);

fn boot_in(tree: &Tree) -> Option<BootDevice>
    ensures { result ≡ spec.boot_in (seen tree.now) }
{
    match attribute_of(AttributeName::Dev, tree) {
        Some(word) => boot_device_of(word.as_str()),
        None => None,
    }
}

fn boots_among(alloc: Global, trees: &[Tree]) -> Result<Vec<BootDevice>, NoMemory>
    ensures { IfOk result (λ found. found.items
        ≡ filter_map spec.boot_in (filter (is_named ElementName.Boot) (map seen trees.now))) }
{
    let mut found = Vec::new(alloc);
    let mut rest = trees;
    while let Some((tree, after)) = rest.split_first() {
        if is_element(ElementName::Boot, tree) {
            match boot_in(tree) {
                Some(boot) => found.push(boot)?,
                None => {}
            }
        }
        rest = after;
    }
    Ok(found)
}

#[tactic(auto, using(text_spec::proofs::Seen::children_seen), unfolding(text_spec::specs::Look::all_of))]
fn boots_of(alloc: Global, os: &Tree) -> Result<BootDeviceList, NoMemory>
    ensures { IfOk result (λ found. found
        ≡ filter_map spec.boot_in (all_of ElementName.Boot (seen os.now))) }
{
    Ok(BootDeviceList::of(boots_among(alloc, os.children.as_slice())?))
}

fn boots_in(alloc: Global, tree: &Tree) -> Result<BootDeviceList, NoMemory>
    ensures { IfOk result (λ found. found ≡ filter_map spec.boot_in
        (elements_at (Place.Inside ElementName.Os ElementName.Boot) (seen tree.now))) }
{
    match first_of(ElementName::Os, tree) {
        Some(os) => boots_of(alloc, os),
        None => Ok(BootDeviceList::new(alloc)),
    }
}

fn type_in(alloc: Global, tree: &Tree) -> Result<Text, NoMemory>
    ensures { IfOk result (λ t. t ≡ unwrap_or (spec.text_at spec.os_type (seen tree.now)) []) }
{
    match value_at(TYPE, Source::Text, tree) {
        Some(text) => Ok(text.copy()?),
        None => Ok(Text::of(String::new(alloc))),
    }
}

/// What the guest of a domain is.
#[tactic(auto, unfolding(text_spec::specs::DomainValue::os_of))]
pub(crate) fn os_in(alloc: Global, tree: &Tree) -> Result<Os, NoMemory>
    ensures { IfOk result (λ os. os ≡ spec.os_of (seen tree.now)) }
{
    let ((kind, boot), (arch, machine)) = both(
        both(type_in(alloc, tree), boots_in(alloc, tree)),
        both(
            copied_value(TYPE, Source::Attribute(AttributeName::Arch), tree),
            copied_value(TYPE, Source::Attribute(AttributeName::Machine), tree),
        ),
    )?;
    Ok(Os {
        kind,
        arch,
        machine,
        boot,
    })
}
