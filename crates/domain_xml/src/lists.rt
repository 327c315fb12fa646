// The devices of a domain, by their kinds.
ghost use Rattle.std.specs.Prelude.{◌≡◌, IfOk, filter, map};
ghost use Rattle.text_spec.specs.DeviceText as device;
ghost use Rattle.text_spec.specs.DomainValue as spec;
ghost use Rattle.text_spec.specs.Look.{is_element as is_named};
ghost use Rattle.text_spec.specs.Tree.{seen};

use device_xml::{disk_of, interface_of};
use std::alloc::Global;
use text_spec::{AttributeName, ElementName, Tree};
use types_base::{CharacterDevice, Disk, Graphics, Interface, Memballoon, NoMemory, both};
use xml_tables::{copied_attribute, is_element};

fn character_device_of(tree: &Tree) -> Result<CharacterDevice, NoMemory>
    ensures { IfOk result (λ d. d ≡ spec.character_device_of (seen tree.now)) }
{
    Ok(CharacterDevice {
        kind: copied_attribute(AttributeName::Type, tree)?,
    })
}

fn graphics_of(tree: &Tree) -> Result<Graphics, NoMemory>
    ensures { IfOk result (λ g. g ≡ spec.graphics_of (seen tree.now)) }
{
    let (kind, port) = both(
        copied_attribute(AttributeName::Type, tree),
        copied_attribute(AttributeName::Port, tree),
    )?;
    Ok(Graphics { kind, port })
}

pub(crate) fn memballoon_of(tree: &Tree) -> Result<Memballoon, NoMemory>
    ensures { IfOk result (λ m. m ≡ spec.memballoon_of (seen tree.now)) }
{
    Ok(Memballoon {
        model: copied_attribute(AttributeName::Model, tree)?,
    })
}

pub(crate) fn disks_among(alloc: Global, trees: &[Tree]) -> Result<Vec<Disk>, NoMemory>
    ensures { IfOk result (λ found. found.items
        ≡ map device.disk_of (filter (is_named ElementName.Disk) (map seen trees.now))) }
{
    let mut found = Vec::new(alloc);
    let mut rest = trees;
    while let Some((tree, after)) = rest.split_first() {
        if is_element(ElementName::Disk, tree) {
            found.push(disk_of(alloc, tree)?)?;
        }
        rest = after;
    }
    Ok(found)
}

pub(crate) fn interfaces_among(alloc: Global, trees: &[Tree]) -> Result<Vec<Interface>, NoMemory>
    ensures { IfOk result (λ found. found.items
        ≡ map device.interface_of (filter (is_named ElementName.Interface) (map seen trees.now))) }
{
    let mut found = Vec::new(alloc);
    let mut rest = trees;
    while let Some((tree, after)) = rest.split_first() {
        if is_element(ElementName::Interface, tree) {
            found.push(interface_of(tree)?)?;
        }
        rest = after;
    }
    Ok(found)
}

/// The serials or the consoles, by the name.
pub(crate) fn characters_among(
    alloc: Global,
    name: ElementName,
    trees: &[Tree],
) -> Result<Vec<CharacterDevice>, NoMemory>
    ensures { IfOk result (λ found. found.items
        ≡ map spec.character_device_of (filter (is_named name) (map seen trees.now))) }
{
    let mut found = Vec::new(alloc);
    let mut rest = trees;
    while let Some((tree, after)) = rest.split_first() {
        if is_element(name, tree) {
            found.push(character_device_of(tree)?)?;
        }
        rest = after;
    }
    Ok(found)
}

pub(crate) fn graphics_among(alloc: Global, trees: &[Tree]) -> Result<Vec<Graphics>, NoMemory>
    ensures { IfOk result (λ found. found.items
        ≡ map spec.graphics_of (filter (is_named ElementName.Graphics) (map seen trees.now))) }
{
    let mut found = Vec::new(alloc);
    let mut rest = trees;
    while let Some((tree, after)) = rest.split_first() {
        if is_element(ElementName::Graphics, tree) {
            found.push(graphics_of(tree)?)?;
        }
        rest = after;
    }
    Ok(found)
}
