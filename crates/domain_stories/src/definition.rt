// The domain `a` of all stories, and what is asked of it beside.
use std::alloc::Global;
use virt_types::{
    CrashAction, DeviceDef, Disk, DiskDevice, DiskTarget, DiskType, DomainDef, DomainType,
    LifecycleAction, ListOf, Name, NoMemory, Os, Script, ScriptEntry, Text, Uuid, both,
};

/// The name of this text, which is one.
pub(crate) fn name(alloc: Global, text: &str) -> Result<Name, NoMemory> {
    match Name::read(alloc, text.as_bytes()) {
        Ok(name) => Ok(name),
        Err(_) => Err(NoMemory),
    }
}

/// The disk `vda`.
pub(crate) fn disk(alloc: Global) -> Result<DeviceDef, NoMemory> {
    let dev = Text::copy_of(alloc, "vda")?;
    Ok(DeviceDef::Disk(Disk {
        kind: DiskType::File,
        device: DiskDevice::Disk,
        driver: None,
        source: None,
        target: DiskTarget { dev, bus: None },
        readonly: false,
    }))
}

// A copy of the guest's state takes five polls.
fn slow(alloc: Global) -> Result<Script, NoMemory> {
    let text = Text::copy_of(alloc, "slow 5")?;
    let mut entries = ListOf::new(alloc);
    entries.push(ScriptEntry::Slow(5))?;
    Ok(Script { text, entries })
}

/// The definition of `a`, with 2048 KiB, two processors and no devices, of whose guest's state a copy takes five polls.
pub(crate) fn definition(alloc: Global) -> Result<DomainDef, NoMemory> {
    let made = both(
        name(alloc, "a"),
        both(slow(alloc), Text::copy_of(alloc, "hvm")),
    );
    let (name, (guest, kind)) = made?;
    Ok(DomainDef {
        kind: DomainType::Qemu,
        name,
        uuid: Some(Uuid::from_u128(1)),
        title: None,
        description: None,
        guest,
        memory: 2048,
        current_memory: 2048,
        vcpus: 2,
        current_vcpus: 2,
        os: Os {
            kind,
            arch: None,
            machine: None,
            boot: ListOf::new(alloc),
        },
        on_poweroff: LifecycleAction::Destroy,
        on_reboot: LifecycleAction::Restart,
        on_crash: CrashAction::Destroy,
        emulator: None,
        disks: ListOf::new(alloc),
        interfaces: ListOf::new(alloc),
        serials: ListOf::new(alloc),
        consoles: ListOf::new(alloc),
        graphics: ListOf::new(alloc),
        memballoon: None,
    })
}
