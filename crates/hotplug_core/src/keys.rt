// Which device of a guest has the key of another: a disk's target, an interface's MAC.
ghost use Rattle.std.specs.Prelude.{◌≡◌, IfOk, OnErr, bytes_eq, option_map, position, slice_get, is_some, true};
ghost use Rattle.domain_spec.specs.Devices.{both, device_like, devices_of, has_same_key, is_same_mac};

use virt_types::{DeviceDef, Disk, DomainDef, Interface, Live, Mac, NoMemory, TryCopy};

fn is_same_mac(one: Option<Mac>, other: Option<Mac>) -> bool
    ensures { result ≡ is_same_mac one other }
{
    match (one, other) {
        (Some(one), Some(other)) => one.bytes.as_slice() == other.bytes.as_slice(),
        _ => false,
    }
}

fn disk_place(disks: &[Disk], wanted: &Disk) -> Option<usize>
    ensures { result ≡ position (λ d. bytes_eq wanted.now.target.dev d.target.dev) disks.now }
{
    disks.iter().position(|disk| wanted.target.dev.as_bytes() == disk.target.dev.as_bytes())
}

fn interface_place(interfaces: &[Interface], wanted: &Interface) -> Option<usize>
    ensures { result ≡ position (λ i. is_same_mac wanted.now.mac i.mac) interfaces.now }
{
    interfaces
        .iter()
        .position(|interface| is_same_mac(wanted.mac, interface.mac))
}

/// The place of the first device of a definition that has the key of this one: among its disks, or
/// after them among its interfaces.
pub fn place_like(def: &DomainDef, wanted: &DeviceDef) -> Option<usize>
    ensures { result ≡ position (has_same_key wanted.now) (devices_of def.now) }
{
    match wanted {
        DeviceDef::Disk(disk) => disk_place(def.disks.as_slice(), disk),
        DeviceDef::Interface(interface) => {
            let disks = def.disks.as_slice();
            match interface_place(def.interfaces.as_slice(), interface) {
                None => None,
                Some(place) => Some(disks.len() + place),
            }
        }
    }
}

// A copy of the device at a place among the disks, or after them among the interfaces.
fn device_at(def: &DomainDef, place: usize) -> Result<Option<DeviceDef>, NoMemory>
    ensures device { IfOk result (λ device. device ≡ slice_get (devices_of def.now) place) }
    ensures memory { OnErr result (is_some (slice_get (devices_of def.now) place) ≡ true) }
{
    let disks = def.disks.as_slice();
    if place < disks.len() {
        return Ok(Some(DeviceDef::Disk(disks[place].copy()?)));
    }
    match def.interfaces.as_slice().get(place - disks.len()) {
        None => Ok(None),
        Some(interface) => Ok(Some(DeviceDef::Interface(interface.copy()?))),
    }
}

// The slot and a copy of the device at a place, where both are there.
fn placed(live: &Live, place: usize) -> Result<Option<(u32, DeviceDef)>, NoMemory>
    ensures found { IfOk result (λ found. found ≡ both (slice_get live.now.slots place) (slice_get (devices_of live.now.def) place)) }
    ensures memory { OnErr result (is_some (both (slice_get live.now.slots place) (slice_get (devices_of live.now.def) place)) ≡ true) }
{
    match live.slots.as_slice().get(place) {
        None => Ok(None),
        Some(slot) => match device_at(&live.def, place)? {
            None => Ok(None),
            Some(device) => Ok(Some((*slot, device))),
        },
    }
}

/// A copy of the guest's device that has the key of this one, and its slot.
pub fn device_like(live: &Live, wanted: &DeviceDef) -> Result<Option<(u32, DeviceDef)>, NoMemory>
    ensures found { IfOk result (λ found. found ≡ device_like live.now wanted.now) }
    ensures memory { OnErr result (is_some (device_like live.now wanted.now) ≡ true) }
{
    match place_like(&live.def, wanted) {
        None => Ok(None),
        Some(place) => placed(live, place),
    }
}

/// The slot of the guest's device that has the key of this one.
pub fn slot_like(live: &Live, wanted: &DeviceDef) -> Option<u32>
    ensures { result ≡ option_map (λ found. found.0) (device_like live.now wanted.now) }
{
    match place_like(&live.def, wanted) {
        None => None,
        Some(place) => live.slots.as_slice().get(place).copied(),
    }
}
