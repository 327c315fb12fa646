// Disks, interfaces, and devices on their own.
ghost use Rattle.std.specs.Prelude.{◌≡◌, ◌++◌, ◌∷◌, [], IfOk, map};
ghost use Rattle.xml_print.specs.Absent.{interface_as, device_as};
ghost use Rattle.text_spec.specs.DevicePrinted as spec;
ghost use Rattle.text_spec.specs.Tree.{seen};

use crate::absent::Absent;
use crate::attributes::{one, push_pair};
use crate::device_elements::{
    add_disk_source, add_driver, add_interface_model, add_interface_source, add_mac, add_readonly,
    target_tree,
};
use crate::elements::{add, holding};
use std::alloc::Global;
use text_spec::{AttributeName, ElementName, PairList, Tree};
use virt_types::{DeviceDef, Disk, Interface, NoMemory, both};
use xml_tables::{disk_device_word, disk_type_word, interface_type_word};

/// The attributes of a disk.
fn disk_attributes(alloc: Global, disk: &Disk) -> Result<PairList, NoMemory>
    ensures { IfOk result (λ ps. ps ≡ spec.disk_attributes disk.now) }
{
    let mut attributes = one(alloc, AttributeName::Type, disk_type_word(disk.kind))?;
    push_pair(
        alloc,
        &mut attributes,
        AttributeName::Device,
        disk_device_word(disk.device),
    )?;
    Ok(attributes)
}

/// The elements in a disk's.
fn disk_children(alloc: Global, disk: &Disk) -> Result<Vec<Tree>, NoMemory>
    ensures { IfOk result (λ ts. map seen ts.items ≡ spec.disk_children disk.now) }
{
    let mut children = Vec::new(alloc);
    add_driver(alloc, &mut children, &disk.driver)?;
    add_disk_source(alloc, &mut children, &disk.source)?;
    add(&mut children, target_tree(alloc, &disk.target)?)?;
    add_readonly(alloc, &mut children, disk.readonly)?;
    Ok(children)
}

/// The tree of a disk.
#[tactic(auto, unfolding(text_spec::specs::DevicePrinted::disk_tree))]
pub(crate) fn disk_tree(alloc: Global, disk: &Disk) -> Result<Tree, NoMemory>
    ensures { IfOk result (λ t. seen t ≡ spec.disk_tree disk.now) }
{
    let (attributes, children) = both(disk_attributes(alloc, disk), disk_children(alloc, disk))?;
    holding(alloc, ElementName::Disk, attributes, children)
}

/// The elements in an interface's.
fn interface_children(
    alloc: Global,
    interface: &Interface,
    absent: Absent,
) -> Result<Vec<Tree>, NoMemory>
    ensures { IfOk result (λ ts. map seen ts.items
        ≡ spec.interface_children (interface_as absent interface.now)) }
{
    let mut children = Vec::new(alloc);
    add_mac(alloc, &mut children, absent.mac(interface.mac))?;
    add_interface_source(alloc, &mut children, &interface.source)?;
    add_interface_model(alloc, &mut children, &interface.model)?;
    Ok(children)
}

/// The tree of an interface.
#[tactic(auto, unfolding(text_spec::specs::DevicePrinted::interface_tree))]
pub(crate) fn interface_tree(
    alloc: Global,
    interface: &Interface,
    absent: Absent,
) -> Result<Tree, NoMemory>
    ensures { IfOk result (λ t. seen t
        ≡ spec.interface_tree (interface_as absent interface.now)) }
{
    let word = interface_type_word(interface.kind);
    let (attributes, children) = both(
        one(alloc, AttributeName::Type, word),
        interface_children(alloc, interface, absent),
    )?;
    holding(alloc, ElementName::Interface, attributes, children)
}

/// The tree of a device: the elements and attributes of its table, in that order.
#[tactic(auto, unfolding(text_spec::specs::DevicePrinted::device_tree))]
pub fn device_tree(alloc: Global, device: &DeviceDef, absent: Absent) -> Result<Tree, NoMemory>
    ensures { IfOk result (λ t. seen t ≡ spec.device_tree (device_as absent device.now)) }
{
    match device {
        DeviceDef::Disk(disk) => disk_tree(alloc, disk),
        DeviceDef::Interface(interface) => interface_tree(alloc, interface, absent),
    }
}
