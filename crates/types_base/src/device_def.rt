// Devices that a definition describes and that are attached and detached: disks and interfaces.
use crate::copy::{TryCopy, both};
use crate::list::ListOf;
use crate::mac::Mac;
use crate::memory::NoMemory;
use crate::text::Text;

/// What a disk's source is: the attribute `type`.
#[derive(Clone, Copy, Debug, PartialEq, Eq)]
pub enum DiskType {
    /// `file`, the default.
    File,
    /// `block`.
    Block,
    /// `volume`.
    Volume,
}

/// What the guest sees a disk as: the attribute `device`.
#[derive(Clone, Copy, Debug, PartialEq, Eq)]
pub enum DiskDevice {
    /// `disk`, the default.
    Disk,
    /// `cdrom`.
    Cdrom,
    /// `lun`.
    Lun,
    /// `floppy`.
    Floppy,
}

/// `driver`: how the disk's source is read.
#[derive(Drop)]
pub struct DiskDriver {
    /// The attribute `name`.
    pub name: Option<Text>,
    /// The attribute `type`.
    pub kind: Option<Text>,
}

impl TryCopy for DiskDriver {
    fn copy(&self) -> Result<DiskDriver, NoMemory> {
        Ok(DiskDriver {
            name: self.name.copy()?,
            kind: self.kind.copy()?,
        })
    }
}

/// `source`: where the disk's content lies.
#[derive(Drop)]
pub struct DiskSource {
    /// The attribute `file`.
    pub file: Option<Text>,
    /// The attribute `dev`.
    pub dev: Option<Text>,
    /// The attribute `pool`.
    pub pool: Option<Text>,
    /// The attribute `volume`.
    pub volume: Option<Text>,
}

impl TryCopy for DiskSource {
    fn copy(&self) -> Result<DiskSource, NoMemory> {
        let local = both(self.file.copy(), self.dev.copy());
        let pooled = both(self.pool.copy(), self.volume.copy());
        let ((file, dev), (pool, volume)) = both(local, pooled)?;
        Ok(DiskSource {
            file,
            dev,
            pool,
            volume,
        })
    }
}

/// `target`: where the guest sees the disk.
#[derive(Drop)]
pub struct DiskTarget {
    /// The attribute `dev`, as `vda`, by which disks differ.
    pub dev: Text,
    /// The attribute `bus`.
    pub bus: Option<Text>,
}

impl TryCopy for DiskTarget {
    fn copy(&self) -> Result<DiskTarget, NoMemory> {
        Ok(DiskTarget {
            dev: self.dev.copy()?,
            bus: self.bus.copy()?,
        })
    }
}

/// `disk`: a disk of a domain (libvirt's domain XML, "Hard drives, floppy disks, CDROMs").
pub struct Disk {
    /// The attribute `type`.
    pub kind: DiskType,
    /// The attribute `device`.
    pub device: DiskDevice,
    /// The element `driver`.
    pub driver: Option<DiskDriver>,
    /// The element `source`.
    pub source: Option<DiskSource>,
    /// The element `target`.
    pub target: DiskTarget,
    /// Whether the element `readonly` is there.
    pub readonly: bool,
}

impl Drop for Disk {
    fn drop(self) {
        let Disk {
            kind: _,
            device: _,
            driver: _,
            source: _,
            target: _,
            readonly: _,
        } = self;
    }
}

impl TryCopy for Disk {
    fn copy(&self) -> Result<Disk, NoMemory> {
        let (driver, (source, target)) = both(
            self.driver.copy(),
            both(self.source.copy(), self.target.copy()),
        )?;
        Ok(Disk {
            kind: self.kind,
            device: self.device,
            driver,
            source,
            target,
            readonly: self.readonly,
        })
    }
}

/// What an interface is joined to: the attribute `type`.
#[derive(Clone, Copy, Debug, PartialEq, Eq)]
pub enum InterfaceType {
    /// `network`: a network of this daemon.
    Network,
    /// `bridge`: a bridge of the host.
    Bridge,
    /// `user`: the user's own connections.
    User,
}

/// `source`: which network or bridge an interface is joined to.
#[derive(Drop)]
pub struct InterfaceSource {
    /// The attribute `network`.
    pub network: Option<Text>,
    /// The attribute `bridge`.
    pub bridge: Option<Text>,
}

impl TryCopy for InterfaceSource {
    fn copy(&self) -> Result<InterfaceSource, NoMemory> {
        Ok(InterfaceSource {
            network: self.network.copy()?,
            bridge: self.bridge.copy()?,
        })
    }
}

/// `model`: what card the guest sees.
#[derive(Drop)]
pub struct InterfaceModel {
    /// The attribute `type`.
    pub kind: Option<Text>,
}

impl TryCopy for InterfaceModel {
    fn copy(&self) -> Result<InterfaceModel, NoMemory> {
        Ok(InterfaceModel {
            kind: self.kind.copy()?,
        })
    }
}

/// `interface`: a network interface of a domain (libvirt's domain XML, "Network interfaces").
pub struct Interface {
    /// The attribute `type`.
    pub kind: InterfaceType,
    /// `mac` with `address`, by which interfaces differ; none before it is filled in.
    pub mac: Option<Mac>,
    /// The element `source`.
    pub source: Option<InterfaceSource>,
    /// The element `model`.
    pub model: Option<InterfaceModel>,
}

impl Drop for Interface {
    fn drop(self) {
        let Interface {
            kind: _,
            mac: _,
            source: _,
            model: _,
        } = self;
    }
}

impl TryCopy for Interface {
    fn copy(&self) -> Result<Interface, NoMemory> {
        Ok(Interface {
            kind: self.kind,
            mac: self.mac,
            source: self.source.copy()?,
            model: self.model.copy()?,
        })
    }
}

/// A device that is attached or detached by itself.
#[derive(Drop)]
pub enum DeviceDef {
    /// A disk.
    Disk(Disk),
    /// A network interface.
    Interface(Interface),
}

impl TryCopy for DeviceDef {
    fn copy(&self) -> Result<DeviceDef, NoMemory> {
        Ok(match self {
            DeviceDef::Disk(it) => DeviceDef::Disk(it.copy()?),
            DeviceDef::Interface(it) => DeviceDef::Interface(it.copy()?),
        })
    }
}

/// Disks in order.
pub type DiskList = ListOf<Disk>;

/// Interfaces in order.
pub type InterfaceList = ListOf<Interface>;
