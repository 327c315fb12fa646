// The devices of a domain.
ghost use Rattle.std.specs.Prelude.{◌≡◌, ◌++◌, IfOk, OnOk, map};
ghost use Rattle.xml_print.specs.Absent.{interfaces_as, domain_as};
ghost use Rattle.text_spec.specs.DevicePrinted as spec_device;
ghost use Rattle.text_spec.specs.DomainPrinted as spec;
ghost use Rattle.text_spec.specs.Spelling.{present};
ghost use Rattle.text_spec.specs.Tree.{seen};
ghost use Rattle.text_spec.specs.declared.vocabulary.ElementName.TheVariants as element;

use crate::absent::Absent;
use crate::attributes::{one_present, two_present};
use crate::device::{disk_tree, interface_tree};
use crate::elements::{add, holding, tagged};
use crate::general::add_text;
use std::alloc::Global;
use text_spec::{AttributeName, ElementName, PairList, Tree};
use virt_types::{CharacterDevice, Disk, DomainDef, Graphics, Interface, Memballoon, NoMemory};

fn add_disks(alloc: Global, out: &mut Vec<Tree>, disks: &[Disk]) -> Result<(), NoMemory>
    ensures { OnOk result (map seen out.new.items ≡ map seen out.old.items
        ++ map spec_device.disk_tree disks.now) }
{
    let mut rest = disks;
    while let Some((disk, following)) = rest.split_first() {
        add(out, disk_tree(alloc, disk)?)?;
        rest = following;
    }
    Ok(())
}

fn add_interfaces(
    alloc: Global,
    out: &mut Vec<Tree>,
    interfaces: &[Interface],
    absent: Absent,
) -> Result<(), NoMemory>
    ensures { OnOk result (map seen out.new.items ≡ map seen out.old.items
        ++ map spec_device.interface_tree (interfaces_as absent interfaces.now)) }
{
    let mut rest = interfaces;
    while let Some((interface, following)) = rest.split_first() {
        add(out, interface_tree(alloc, interface, absent)?)?;
        rest = following;
    }
    Ok(())
}

fn character_tree(
    alloc: Global,
    name: ElementName,
    device: &CharacterDevice,
) -> Result<Tree, NoMemory>
    ensures { IfOk result (λ t. seen t ≡ spec.character_tree name device.now) }
{
    let attributes = one_present(alloc, AttributeName::Type, &device.kind)?;
    tagged(alloc, name, attributes)
}

fn add_characters(
    alloc: Global,
    out: &mut Vec<Tree>,
    name: ElementName,
    devices: &[CharacterDevice],
) -> Result<(), NoMemory>
    ensures { OnOk result (map seen out.new.items ≡ map seen out.old.items
        ++ map (spec.character_tree name) devices.now) }
{
    let mut rest = devices;
    while let Some((device, following)) = rest.split_first() {
        add(out, character_tree(alloc, name, device)?)?;
        rest = following;
    }
    Ok(())
}

fn graphics_tree(alloc: Global, graphics: &Graphics) -> Result<Tree, NoMemory>
    ensures { IfOk result (λ t. seen t ≡ spec.graphics_tree graphics.now) }
{
    let attributes = two_present(
        alloc,
        AttributeName::Type,
        &graphics.kind,
        AttributeName::Port,
        &graphics.port,
    )?;
    tagged(alloc, ElementName::Graphics, attributes)
}

fn add_graphics(alloc: Global, out: &mut Vec<Tree>, graphics: &[Graphics]) -> Result<(), NoMemory>
    ensures { OnOk result (map seen out.new.items ≡ map seen out.old.items
        ++ map spec.graphics_tree graphics.now) }
{
    let mut rest = graphics;
    while let Some((one, following)) = rest.split_first() {
        add(out, graphics_tree(alloc, one)?)?;
        rest = following;
    }
    Ok(())
}

fn memballoon_tree(alloc: Global, memballoon: &Memballoon) -> Result<Tree, NoMemory>
    ensures { IfOk result (λ t. seen t ≡ spec.memballoon_tree memballoon.now) }
{
    let attributes = one_present(alloc, AttributeName::Model, &memballoon.model)?;
    tagged(alloc, ElementName::Memballoon, attributes)
}

fn add_memballoon(
    alloc: Global,
    out: &mut Vec<Tree>,
    memballoon: &Option<Memballoon>,
) -> Result<(), NoMemory>
    ensures { OnOk result (map seen out.new.items ≡ map seen out.old.items
        ++ present spec.memballoon_tree memballoon.now) }
{
    match memballoon {
        Some(memballoon) => add(out, memballoon_tree(alloc, memballoon)?),
        None => Ok(()),
    }
}

/// Adds the devices other than disks and interfaces.
fn add_others(alloc: Global, out: &mut Vec<Tree>, def: &DomainDef) -> Result<(), NoMemory>
    ensures { OnOk result (map seen out.new.items ≡ map seen out.old.items
        ++ spec.other_device_trees def.now) }
{
    add_characters(alloc, out, ElementName::Serial, def.serials.as_slice())?;
    add_characters(alloc, out, ElementName::Console, def.consoles.as_slice())?;
    add_graphics(alloc, out, def.graphics.as_slice())?;
    add_memballoon(alloc, out, &def.memballoon)
}

/// The elements of all devices.
#[tactic(auto, unfolding(text_spec::specs::DomainPrinted::device_trees))]
fn device_trees(alloc: Global, def: &DomainDef, absent: Absent) -> Result<Vec<Tree>, NoMemory>
    ensures { IfOk result (λ ts. map seen ts.items
        ≡ spec.device_trees (domain_as absent def.now)) }
{
    let mut out = Vec::new(alloc);
    add_text(alloc, &mut out, ElementName::Emulator, &def.emulator)?;
    add_disks(alloc, &mut out, def.disks.as_slice())?;
    add_interfaces(alloc, &mut out, def.interfaces.as_slice(), absent)?;
    add_others(alloc, &mut out, def)?;
    Ok(out)
}

/// Adds an element with these in it, where there are any.
fn add_gathered(
    alloc: Global,
    out: &mut Vec<Tree>,
    name: ElementName,
    trees: Vec<Tree>,
) -> Result<(), NoMemory>
    ensures { OnOk result (map seen out.new.items ≡ map seen out.old.items
        ++ spec.gathered name (map seen trees.items)) }
{
    if trees.is_empty() {
        Ok(())
    } else {
        add(out, holding(alloc, name, PairList::new(alloc), trees)?)
    }
}

/// Adds the element of the devices, where there are any.
pub(crate) fn add_devices(
    alloc: Global,
    out: &mut Vec<Tree>,
    def: &DomainDef,
    absent: Absent,
) -> Result<(), NoMemory>
    ensures { OnOk result (map seen out.new.items ≡ map seen out.old.items
        ++ spec.gathered element.Devices (spec.device_trees (domain_as absent def.now))) }
{
    let devices = device_trees(alloc, def, absent)?;
    add_gathered(alloc, out, ElementName::Devices, devices)
}
