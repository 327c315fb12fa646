// The definition of a domain, with one field for each row of its element table.
use crate::copy::{TryCopy, both};
use crate::device_def::{DiskList, InterfaceList};
use crate::list::ListOf;
use crate::memory::NoMemory;
use crate::name::Name;
use crate::script::Script;
use crate::text::Text;
use uuid::Uuid;

/// By what a domain is run: the attribute `type`.
#[derive(Clone, Copy, Debug, PartialEq, Eq)]
pub enum DomainType {
    /// `kvm`.
    Kvm,
    /// `qemu`.
    Qemu,
}

/// What a guest is booted from: the attribute `dev` of `os/boot`.
#[derive(Clone, Copy, Debug, PartialEq, Eq)]
pub enum BootDevice {
    /// `hd`.
    Hd,
    /// `cdrom`.
    Cdrom,
    /// `network`.
    Network,
    /// `fd`.
    Fd,
}

impl TryCopy for BootDevice {
    fn copy(&self) -> Result<BootDevice, NoMemory> {
        Ok(*self)
    }
}

/// Boot devices in order of trial.
pub type BootDeviceList = ListOf<BootDevice>;

/// `os`: what the guest is.
pub struct Os {
    /// The content of `type`, as `hvm`.
    pub kind: Text,
    /// The attribute `arch` of `type`.
    pub arch: Option<Text>,
    /// The attribute `machine` of `type`.
    pub machine: Option<Text>,
    /// The elements `boot`.
    pub boot: BootDeviceList,
}

impl Drop for Os {
    fn drop(self) {
        let Os {
            kind: _,
            arch: _,
            machine: _,
            boot: _,
        } = self;
    }
}

impl TryCopy for Os {
    fn copy(&self) -> Result<Os, NoMemory> {
        let machine = both(self.arch.copy(), self.machine.copy());
        let ((arch, machine), (kind, boot)) = both(
            machine,
            both(self.kind.copy(), self.boot.copy()),
        )?;
        Ok(Os {
            kind,
            arch,
            machine,
            boot,
        })
    }
}

/// What is wanted when a guest powers off or reboots. It is kept and printed, and steers nothing.
#[derive(Clone, Copy, Debug, PartialEq, Eq)]
pub enum LifecycleAction {
    /// `destroy`.
    Destroy,
    /// `restart`.
    Restart,
    /// `preserve`.
    Preserve,
    /// `rename-restart`.
    RenameRestart,
}

/// What is wanted when a guest crashes. It is kept and printed, and steers nothing.
#[derive(Clone, Copy, Debug, PartialEq, Eq)]
pub enum CrashAction {
    /// `destroy`.
    Destroy,
    /// `restart`.
    Restart,
    /// `preserve`.
    Preserve,
    /// `rename-restart`.
    RenameRestart,
    /// `coredump-destroy`.
    CoredumpDestroy,
    /// `coredump-restart`.
    CoredumpRestart,
}

/// `serial` or `console`: a character device.
#[derive(Drop)]
pub struct CharacterDevice {
    /// The attribute `type`.
    pub kind: Option<Text>,
}

impl TryCopy for CharacterDevice {
    fn copy(&self) -> Result<CharacterDevice, NoMemory> {
        Ok(CharacterDevice {
            kind: self.kind.copy()?,
        })
    }
}

/// Character devices in order.
pub type CharacterDeviceList = ListOf<CharacterDevice>;

/// `graphics`: how the guest's screen is shown.
#[derive(Drop)]
pub struct Graphics {
    /// The attribute `type`.
    pub kind: Option<Text>,
    /// The attribute `port`.
    pub port: Option<Text>,
}

impl TryCopy for Graphics {
    fn copy(&self) -> Result<Graphics, NoMemory> {
        Ok(Graphics {
            kind: self.kind.copy()?,
            port: self.port.copy()?,
        })
    }
}

/// Elements `graphics` in order.
pub type GraphicsList = ListOf<Graphics>;

/// `memballoon`: the device by which a guest's memory is set.
#[derive(Drop)]
pub struct Memballoon {
    /// The attribute `model`.
    pub model: Option<Text>,
}

impl TryCopy for Memballoon {
    fn copy(&self) -> Result<Memballoon, NoMemory> {
        Ok(Memballoon {
            model: self.model.copy()?,
        })
    }
}

/// The definition of a domain (libvirt's domain XML format, in this project's profile). Its fields are
/// read and replaced in place; none is moved out of it.
pub struct DomainDef {
    /// The attribute `type`.
    pub kind: DomainType,
    /// `name`.
    pub name: Name,
    /// `uuid`; none before it is filled in.
    pub uuid: Option<Uuid>,
    /// `title`.
    pub title: Option<Text>,
    /// `description`.
    pub description: Option<Text>,
    /// `metadata/guest`: the script of a modelled guest.
    pub guest: Script,
    /// `memory`: the most that the guest may get, in KiB, 1 to 2^40.
    pub memory: u64,
    /// `currentMemory`: what the guest has, in KiB, 1 to `memory`.
    pub current_memory: u64,
    /// `vcpu`: the most processors that the guest may get, 1 to 255.
    pub vcpus: u32,
    /// The attribute `current` of `vcpu`: the processors that the guest has, 1 to `vcpus`.
    pub current_vcpus: u32,
    /// `os`.
    pub os: Os,
    /// `on_poweroff`, by default destroy.
    pub on_poweroff: LifecycleAction,
    /// `on_reboot`, by default restart.
    pub on_reboot: LifecycleAction,
    /// `on_crash`, by default destroy.
    pub on_crash: CrashAction,
    /// `devices/emulator`.
    pub emulator: Option<Text>,
    /// `devices/disk`. Disks and interfaces are together at most 30.
    pub disks: DiskList,
    /// `devices/interface`.
    pub interfaces: InterfaceList,
    /// `devices/serial`.
    pub serials: CharacterDeviceList,
    /// `devices/console`.
    pub consoles: CharacterDeviceList,
    /// `devices/graphics`.
    pub graphics: GraphicsList,
    /// `devices/memballoon`.
    pub memballoon: Option<Memballoon>,
}

impl Drop for DomainDef {
    fn drop(self) {
        let DomainDef {
            kind: _,
            name: _,
            uuid: _,
            title: _,
            description: _,
            guest: _,
            memory: _,
            current_memory: _,
            vcpus: _,
            current_vcpus: _,
            os: _,
            on_poweroff: _,
            on_reboot: _,
            on_crash: _,
            emulator: _,
            disks: _,
            interfaces: _,
            serials: _,
            consoles: _,
            graphics: _,
            memballoon: _,
        } = self;
    }
}

impl TryCopy for DomainDef {
    fn copy(&self) -> Result<DomainDef, NoMemory> {
        let names = both(
            self.name.copy(),
            both(self.title.copy(), self.description.copy()),
        );
        let machine = both(
            self.guest.copy(),
            both(self.os.copy(), self.emulator.copy()),
        );
        let devices = both(self.disks.copy(), self.interfaces.copy());
        let characters = both(self.serials.copy(), self.consoles.copy());
        let others = both(self.graphics.copy(), self.memballoon.copy());
        let (
            ((name, (title, description)), (guest, (os, emulator))),
            ((disks, interfaces), ((serials, consoles), (graphics, memballoon))),
        ) = both(
            both(names, machine),
            both(devices, both(characters, others)),
        )?;
        Ok(DomainDef {
            kind: self.kind,
            name,
            uuid: self.uuid,
            title,
            description,
            guest,
            memory: self.memory,
            current_memory: self.current_memory,
            vcpus: self.vcpus,
            current_vcpus: self.current_vcpus,
            os,
            on_poweroff: self.on_poweroff,
            on_reboot: self.on_reboot,
            on_crash: self.on_crash,
            emulator,
            disks,
            interfaces,
            serials,
            consoles,
            graphics,
            memballoon,
        })
    }
}
