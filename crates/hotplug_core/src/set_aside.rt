// What is set aside for a call that adds or removes a device, before its first ask.
ghost use Rattle.std.specs.Prelude.{◌≡◌, IfOk};
ghost use Rattle.domain_spec.specs.Devices.{mac_key};
ghost use Rattle.hotplug_core.specs.Fitting.{FitsAttaching, FitsDetaching, HasRoom, HasRoomOfKind, IsNew, mac_of};

use crate::room::RoomFor;
use core_rules::Texts;
use std::alloc::Global;
use virt_types::{Boxed, DeviceDef, Disk, DomainDef, Interface, Live, Mac, NoMemory, State, Text};
use xml_words::mac_text;

/// A device that comes to a guest, with room for the guest's lists and one more.
#[derive(Drop)]
pub struct NewDevice {
    /// The device.
    pub device: Boxed<DeviceDef>,
    /// Room for the disks, if it is one.
    pub disks: RoomFor<Disk>,
    /// Room for the interfaces, if it is one.
    pub interfaces: RoomFor<Interface>,
    /// Room for the slots.
    pub slots: RoomFor<u32>,
}

/// What is set aside for a call that adds or removes a device, before its first ask.
#[derive(Drop)]
pub enum Parts {
    /// For a device that comes.
    Attach {
        /// The device.
        new: NewDevice,
        /// Room for a refusal.
        texts: Texts,
    },
    /// For a device that goes.
    Detach {
        /// The MAC of an interface as text, which a refusal keeps; empty for a disk.
        mac: Text,
        /// Room for a refusal.
        texts: Texts,
    },
}

// Room for no values takes no memory.
fn room_of_kind(
    alloc: Global,
    def: &DomainDef,
    device: &DeviceDef,
) -> Result<(RoomFor<Disk>, RoomFor<Interface>), NoMemory>
    ensures { IfOk result (λ room. HasRoomOfKind device.now room.0 room.1 def.now) }
{
    let (disks, interfaces) = match device {
        DeviceDef::Disk(_) => (def.disks.as_slice().len() + 1, 0),
        DeviceDef::Interface(_) => (0, def.interfaces.as_slice().len() + 1),
    };
    Ok((
        RoomFor::new(alloc, disks)?,
        RoomFor::new(alloc, interfaces)?,
    ))
}

fn for_guest(alloc: Global, live: &Live, device: &DeviceDef) -> Result<NewDevice, NoMemory>
    ensures { IfOk result (λ new. (new.device ≡ device.now) × HasRoom new live.now) }
{
    let (disks, interfaces) = room_of_kind(alloc, &live.def, device)?;
    Ok(NewDevice {
        device: Boxed::copy_of(alloc, device)?,
        disks,
        interfaces,
        slots: RoomFor::new(alloc, live.slots.as_slice().len() + 1)?,
    })
}

// Without a guest the call is refused, and no room is needed.
fn without_room(alloc: Global, device: &DeviceDef) -> Result<NewDevice, NoMemory>
    ensures { IfOk result (λ new. new.device ≡ device.now) }
{
    Ok(NewDevice {
        device: Boxed::copy_of(alloc, device)?,
        disks: RoomFor::new(alloc, 0)?,
        interfaces: RoomFor::new(alloc, 0)?,
        slots: RoomFor::new(alloc, 0)?,
    })
}

fn new_device(alloc: Global, live: &Option<Live>, device: &DeviceDef) -> Result<NewDevice, NoMemory>
    ensures { IfOk result (λ new. IsNew new device.now live.now) }
{
    match live {
        None => without_room(alloc, device),
        Some(live) => for_guest(alloc, live, device),
    }
}

fn mac_key(alloc: Global, mac: Option<Mac>) -> Result<Text, NoMemory>
    ensures { IfOk result (λ key. key ≡ mac_key mac) }
{
    match mac {
        None => Text::copy_of(alloc, ""),
        Some(mac) => Ok(Text::of(mac_text(alloc, mac)?)),
    }
}

fn mac_of(alloc: Global, device: &DeviceDef) -> Result<Text, NoMemory>
    ensures { IfOk result (λ mac. mac ≡ mac_of device.now) }
{
    match device {
        DeviceDef::Disk(_) => Text::copy_of(alloc, ""),
        DeviceDef::Interface(interface) => mac_key(alloc, interface.mac),
    }
}

/// What attaching this device needs.
pub fn for_attach(alloc: Global, state: &State, device: &DeviceDef) -> Result<Parts, NoMemory>
    ensures { IfOk result (λ parts. FitsAttaching parts state.now device.now) }
{
    let new = match state {
        State::Vacant { .. } => without_room(alloc, device)?,
        State::Held(domain) => new_device(alloc, &domain.live, device)?,
    };
    Ok(Parts::Attach {
        new,
        texts: Texts::new(alloc)?,
    })
}

/// What detaching the device with the key of this one needs.
pub fn for_detach(alloc: Global, device: &DeviceDef) -> Result<Parts, NoMemory>
    ensures { IfOk result (λ parts. FitsDetaching parts device.now) }
{
    Ok(Parts::Detach {
        mac: mac_of(alloc, device)?,
        texts: Texts::new(alloc)?,
    })
}
