// A guest with a device more or less, changed in place.
ghost use Rattle.std.specs.Prelude.{◌≡◌, ◌==◌, ◌<◌, length, position, remove};
ghost use Rattle.domain_spec.specs.CallResult.{attached, detached};
ghost use Rattle.domain_spec.specs.Devices.{device_like, free_slot, with_device, without_place, without_slot};
ghost use Rattle.domain_spec.specs.Types.device;
ghost use Rattle.hotplug_core.specs.Fitting.{HasRoom};

use crate::keys::slot_like;
use crate::room::RoomFor;
use crate::set_aside::NewDevice;
use crate::slots::free_slot;
use core::mem;
use virt_types::{DeviceDef, Disk, DomainDef, Interface, ListOf, Live};

// A list without the value at a place, and nothing to tell of it.
fn without_at<T: Drop>(list: ListOf<T>, place: usize) -> (ListOf<T>, ())
    ensures { result.0 ≡ remove list place }
{
    let mut values = list.into_vec();
    if place < values.len() {
        let _gone = values.remove(place);
    }
    (ListOf::of(values), ())
}

fn remove_at<T: Drop>(list: &mut ListOf<T>, place: usize)
    ensures { list.new ≡ remove list.old place }
{
    mem::replace_with(list, place, without_at)
}

fn remove_place(def: &mut DomainDef, place: usize)
    ensures { def.new ≡ without_place def.old place }
{
    let disks = def.disks.len();
    if place < disks {
        remove_at(&mut def.disks, place)
    } else {
        remove_at(&mut def.interfaces, place - disks)
    }
}

fn place_of_slot(slots: &[u32], slot: u32) -> Option<usize>
    ensures { result ≡ position (λ used. used == slot) slots.now }
{
    slots.iter().position(|used| *used == slot)
}

// The guest with one more disk, at this slot.
fn add_disk(live: &mut Live, slot: u32, disk: Disk, disks: RoomFor<Disk>, slots: RoomFor<u32>)
    requires disks { length live.old.def.disks < disks }
    requires slots { length live.old.slots < slots }
    ensures { live.new ≡ with_device live.old slot (device.Disk disk) }
{
    let place = live.def.disks.len();
    disks.insert(&mut live.def.disks, place, disk);
    slots.insert(&mut live.slots, place, slot);
}

// The guest with one more interface, at this slot.
fn add_interface(
    live: &mut Live,
    slot: u32,
    interface: Interface,
    interfaces: RoomFor<Interface>,
    slots: RoomFor<u32>,
)
    requires interfaces { length live.old.def.interfaces < interfaces }
    requires slots { length live.old.slots < slots }
    ensures { live.new ≡ with_device live.old slot (device.Interface interface) }
{
    let place = live.def.interfaces.len();
    interfaces.insert(&mut live.def.interfaces, place, interface);
    let last = live.slots.len();
    slots.insert(&mut live.slots, last, slot);
}

fn with_device(live: &mut Live, slot: u32, new: NewDevice)
    requires { HasRoom new live.old }
    ensures { live.new ≡ with_device live.old slot new.device }
{
    let NewDevice {
        device,
        disks,
        interfaces,
        slots,
    } = new;
    match device.into_inner() {
        DeviceDef::Disk(disk) => {
            drop(interfaces);
            add_disk(live, slot, disk, disks, slots)
        }
        DeviceDef::Interface(interface) => {
            drop(disks);
            add_interface(live, slot, interface, interfaces, slots)
        }
    }
}

/// Gives the guest this device at the least free slot, if one is free.
pub fn attach(live: &mut Live, new: NewDevice)
    requires { HasRoom new live.old }
    ensures { live.new ≡ attached live.old (free_slot live.old.slots) new.device }
{
    match free_slot(live.slots.as_slice()) {
        None => drop(new),
        Some(slot) => with_device(live, slot, new),
    }
}

/// Takes the device with the key of this one out of the guest, if it is there.
pub fn detach(live: &mut Live, wanted: &DeviceDef)
    ensures { live.new ≡ detached live.old (device_like live.old wanted.now) }
{
    if let Some(slot) = slot_like(live, wanted) {
        without_slot(live, slot)
    }
}

/// Takes the device at this slot out of the guest, if there is one: what is left where the guest has
/// told that the device is gone.
pub fn without_slot(live: &mut Live, slot: u32)
    ensures { live.new ≡ without_slot live.old slot }
{
    if let Some(place) = place_of_slot(live.slots.as_slice(), slot) {
        remove_place(&mut live.def, place);
        remove_at(&mut live.slots, place);
    }
}
