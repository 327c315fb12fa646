// Reading a device on its own.
ghost use Rattle.std.specs.Prelude.{◌≡◌, IfOk};
ghost use Rattle.text_spec.specs.Definition.{device_read};
ghost use Rattle.text_spec.specs.DeviceList as spec;
ghost use Rattle.text_spec.specs.Tree.{seen};
ghost use Rattle.types_base.specs.Memory.{UnlessNoMemory};
ghost use Rattle.text_spec.specs.Tests.{Tests};

use crate::disk::disk_of;
use crate::interface::interface_of;
use crate::table::{element_for, rows_for};
use std::alloc::Global;
use text_spec::{DefFault, DefKind, DeviceKind, ElementName, Tree};
use types_base::{DeviceDef, OrNoMemory};
use xml_print::device_fits;
use xml_tables::{fault_of_root, is_element, rows_test};

fn alone_test(alloc: Global, kind: DeviceKind, tree: &Tree) -> Result<(), OrNoMemory<DefFault>>
    ensures { Tests result (spec.alone_fault kind (seen tree.now)) }
{
    rows_test(alloc, &[element_for(kind)], rows_for(kind), tree)
}

/// The device that a tree is by the tables, whatever the length of its own text.
#[tactic(auto, unfolding(text_spec::specs::DeviceList::device_in))]
fn read_by_table(alloc: Global, tree: &Tree) -> Result<DeviceDef, OrNoMemory<DefFault>>
    ensures { UnlessNoMemory result (spec.device_in (seen tree.now)) }
{
    if is_element(ElementName::Disk, tree) {
        alone_test(alloc, DeviceKind::Disk, tree)?;
        return Ok(DeviceDef::Disk(disk_of(alloc, tree)?));
    }
    if is_element(ElementName::Interface, tree) {
        alone_test(alloc, DeviceKind::Interface, tree)?;
        return Ok(DeviceDef::Interface(interface_of(tree)?));
    }
    Err(OrNoMemory::Fault(fault_of_root(alloc, DefKind::Root, tree)?))
}

/// The device that a tree is by the tables of disks and interfaces.
///
/// The fault is the first one in the order of the table: another root element, a needed value that
/// is absent, a value that is not allowed there. It is `TooLong`, with the root's path, where the
/// device's own text, once it is filled in, would pass the limits of a text.
///
/// What is read of the tree of a whole text is sound (`text_laws::read_device_is_sound`), so that it
/// reads back from the text that is printed of it, filled in or not.
#[tactic(auto, unfolding(text_spec::specs::Definition::device_read))]
pub fn read(alloc: Global, tree: &Tree) -> Result<DeviceDef, OrNoMemory<DefFault>>
    ensures { UnlessNoMemory result (device_read (seen tree.now)) }
{
    let device = match read_by_table(alloc, tree) {
        Ok(device) => device,
        Err(fault) => return Err(fault),
    };
    if device_fits(alloc, &device)? {
        return Ok(device);
    }
    Err(OrNoMemory::Fault(fault_of_root(alloc, DefKind::TooLong, tree)?))
}
