// What attaching and detaching a device asks, one ask at a time.
ghost use Rattle.std.specs.Prelude.{◌≡◌, IfOk, OnErr, Some, is_some, length, slice_get, true};
ghost use Rattle.core_rules.specs.Next.{at_most, is_ask, next_of};
ghost use Rattle.core_rules.specs.Place.{planned_at, undo_step};
ghost use Rattle.domain_spec.specs.Asks.{asks_left};
ghost use Rattle.domain_spec.specs.Call.{attach_plan, detach_plan, device_lease};
ghost use Rattle.domain_spec.specs.Devices.{device_like};
ghost use Rattle.hotplug_core.specs.Asks.{adding, removing};

use crate::keys::{device_like, slot_like};
use core_rules::{Next, Place, has_lease, lease_of, place_after};
use std::alloc::Global;
use virt_types::{Answer, Ask, Boxed, Command, DeviceDef, Live, NoMemory};

// How many asks for an address come first.
fn leases(device: &DeviceDef) -> usize
    ensures { result ≡ length (device_lease device.now) }
{
    match device {
        DeviceDef::Disk(_) => 0,
        DeviceDef::Interface(interface) => { if has_lease(interface) { 1 } else { 0 } }
    }
}

fn device_lease(alloc: Global, device: &DeviceDef) -> Result<Option<Ask>, NoMemory>
    ensures { IfOk result (λ ask. at_most ask ≡ device_lease device.now) }
{
    match device {
        DeviceDef::Disk(_) => Ok(None),
        DeviceDef::Interface(interface) => lease_of(alloc, interface),
    }
}

// The asks for the two sides of a device, without the one for its address.
fn adding(
    alloc: Global,
    device: &DeviceDef,
    slot: u32,
    place: usize,
) -> Result<Option<Ask>, NoMemory>
    ensures ask { IfOk result (λ ask. ask ≡ slice_get (adding device.now slot) place) }
    ensures memory { OnErr result (is_some (slice_get (adding device.now slot) place) ≡ true) }
{
    match place {
        0 => Ok(Some(Ask::Command(Command::AddBackend {
            slot,
            device: Boxed::copy_of(alloc, device)?,
        }))),
        1 => Ok(Some(Ask::Command(Command::AddDevice {
            slot,
            device: Boxed::copy_of(alloc, device)?,
        }))),
        _ => Ok(None),
    }
}

fn attach_ask(
    alloc: Global,
    device: &DeviceDef,
    slot: u32,
    place: usize,
) -> Result<Option<Ask>, NoMemory>
    ensures ask { IfOk result (λ ask. ask ≡ planned_at (attach_plan device.now (Some slot)) place) }
    ensures memory { OnErr result (is_some (planned_at (attach_plan device.now (Some slot)) place) ≡ true) }
{
    let leases = leases(device);
    if place < leases {
        device_lease(alloc, device)
    } else {
        adding(alloc, device, slot, place - leases)
    }
}

// The host's side is removed where the guest's side was refused.
fn attach_undo(device: &DeviceDef, slot: u32, of: usize, step: usize) -> Option<Ask>
    ensures { result ≡ undo_step (attach_plan device.now (Some slot)) of step }
{
    if of == leases(device) + 1 && step == 0 {
        Some(Ask::Command(Command::RemoveBackend(slot)))
    } else {
        None
    }
}

/// What is next after these answers where a device is attached at this slot.
pub fn next_to_attach(
    alloc: Global,
    device: &DeviceDef,
    slot: u32,
    answers: &[Answer],
) -> Result<Next, NoMemory>
    ensures next { IfOk result (λ next. next ≡ next_of (asks_left (attach_plan device.now (Some slot)) answers.now)) }
    ensures memory { OnErr result (is_ask (next_of (asks_left (attach_plan device.now (Some slot)) answers.now)) ≡ true) }
{
    match place_after(answers) {
        Place::Plan(place) => Ok(Next::of(attach_ask(alloc, device, slot, place)?)),
        Place::Undo { of, step } => Ok(Next::of(attach_undo(device, slot, of, step))),
        Place::Through => Ok(Next::Finish),
    }
}

// The guest's side of the device at this slot goes first, then the host's.
fn removing(slot: Option<u32>, place: usize) -> Option<Ask>
    ensures { result ≡ slice_get (removing slot) place }
{
    match slot {
        None => None,
        Some(slot) => match place {
            0 => Some(Ask::Command(Command::RemoveDevice(slot))),
            1 => Some(Ask::Command(Command::RemoveBackend(slot))),
            _ => None,
        },
    }
}

fn detach_ask(live: &Live, wanted: &DeviceDef, place: usize) -> Option<Ask>
    ensures { result ≡ planned_at (detach_plan (device_like live.now wanted.now)) place }
{
    removing(slot_like(live, wanted), place)
}

// The guest's side of the device is added again where the host's side was not removed.
fn detach_undo(
    alloc: Global,
    live: &Live,
    wanted: &DeviceDef,
    of: usize,
    step: usize,
) -> Result<Option<Ask>, NoMemory>
    ensures ask { IfOk result (λ ask. ask ≡ undo_step (detach_plan (device_like live.now wanted.now)) of step) }
    ensures memory { OnErr result (is_some (undo_step (detach_plan (device_like live.now wanted.now)) of step) ≡ true) }
{
    if of != 1 || step != 0 {
        return Ok(None);
    }
    match device_like(live, wanted)? {
        None => Ok(None),
        Some((slot, device)) => Ok(Some(Ask::Command(Command::AddDevice {
            slot,
            device: Boxed::new(alloc, device)?,
        }))),
    }
}

/// What is next after these answers where the guest's device with the key of this one is detached.
pub fn next_to_detach(
    alloc: Global,
    live: &Live,
    wanted: &DeviceDef,
    answers: &[Answer],
) -> Result<Next, NoMemory>
    ensures next { IfOk result (λ next. next ≡ next_of (asks_left (detach_plan (device_like live.now wanted.now)) answers.now)) }
    ensures memory { OnErr result (is_ask (next_of (asks_left (detach_plan (device_like live.now wanted.now)) answers.now)) ≡ true) }
{
    match place_after(answers) {
        Place::Plan(place) => Ok(Next::of(detach_ask(live, wanted, place))),
        Place::Undo { of, step } => Ok(Next::of(detach_undo(alloc, live, wanted, of, step)?)),
        Place::Through => Ok(Next::Finish),
    }
}
