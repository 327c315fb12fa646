// The texts among arguments.
ghost use Rattle.std.specs.Prelude.{◌≡◌, IfOk};
ghost use Rattle.session_spec.specs.Refused.{at_place};
ghost use Rattle.virt_types.specs.Memory.{UnlessNoMemory};
ghost use Rattle.domain_requests.specs.Texts.{device_in, snapshot_in};

use device_xml::read_tree;
use std::alloc::Global;
use virt_types::{DeviceDef, NoMemory, OrNoMemory, SnapInfo, Text};

fn at_text(alloc: Global, at: u64) -> Result<Text, NoMemory>
    ensures { IfOk result (λ kept. kept ≡ at_place at) }
{
    Ok(Text::of(format!(in alloc; "at {at}")?))
}

/// The device that a text is by the tables of disks and interfaces, or what the refusal keeps: the place
/// where the text leaves the grammar, or the path of the element at which it is no device.
pub fn read_device(alloc: Global, text: &[u8]) -> Result<DeviceDef, OrNoMemory<Text>>
    ensures { UnlessNoMemory result (device_in text.now) }
{
    match read_tree(alloc, text) {
        Ok(tree) => match device_xml::read(alloc, &tree) {
            Ok(device) => Ok(device),
            Err(OrNoMemory::Fault(fault)) => Err(OrNoMemory::Fault(fault.path)),
            Err(OrNoMemory::NoMemory) => Err(OrNoMemory::NoMemory),
        },
        Err(OrNoMemory::Fault(fault)) => match at_text(alloc, fault.at) {
            Ok(kept) => Err(OrNoMemory::Fault(kept)),
            Err(NoMemory) => Err(OrNoMemory::NoMemory),
        },
        Err(OrNoMemory::NoMemory) => Err(OrNoMemory::NoMemory),
    }
}

/// The snapshot that a text is, or what the refusal keeps, as for a device.
pub fn read_snapshot(alloc: Global, text: &[u8]) -> Result<SnapInfo, OrNoMemory<Text>>
    ensures { UnlessNoMemory result (snapshot_in text.now) }
{
    match read_tree(alloc, text) {
        Ok(tree) => match snapshot_xml::read(alloc, &tree) {
            Ok(snapshot) => Ok(snapshot),
            Err(OrNoMemory::Fault(fault)) => Err(OrNoMemory::Fault(fault.path)),
            Err(OrNoMemory::NoMemory) => Err(OrNoMemory::NoMemory),
        },
        Err(OrNoMemory::Fault(fault)) => match at_text(alloc, fault.at) {
            Ok(kept) => Err(OrNoMemory::Fault(kept)),
            Err(NoMemory) => Err(OrNoMemory::NoMemory),
        },
        Err(OrNoMemory::NoMemory) => Err(OrNoMemory::NoMemory),
    }
}
