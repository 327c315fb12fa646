// Devices.
use crate::parts::Same;
use virt_types::{
    DeviceDef, Disk, DiskDriver, DiskSource, DiskTarget, Interface, InterfaceModel, InterfaceSource,
};

impl Same for DiskDriver {
    fn same(&self, other: &DiskDriver) -> bool {
        self.name.same(&other.name) && self.kind.same(&other.kind)
    }
}

impl Same for DiskSource {
    fn same(&self, other: &DiskSource) -> bool {
        self.file.same(&other.file)
            && self.dev.same(&other.dev)
            && self.pool.same(&other.pool)
            && self.volume.same(&other.volume)
    }
}

impl Same for DiskTarget {
    fn same(&self, other: &DiskTarget) -> bool {
        self.dev.same(&other.dev) && self.bus.same(&other.bus)
    }
}

impl Same for Disk {
    fn same(&self, other: &Disk) -> bool {
        self.kind == other.kind
            && self.device == other.device
            && self.driver.same(&other.driver)
            && self.source.same(&other.source)
            && self.target.same(&other.target)
            && self.readonly == other.readonly
    }
}

impl Same for InterfaceSource {
    fn same(&self, other: &InterfaceSource) -> bool {
        self.network.same(&other.network) && self.bridge.same(&other.bridge)
    }
}

impl Same for InterfaceModel {
    fn same(&self, other: &InterfaceModel) -> bool {
        self.kind.same(&other.kind)
    }
}

impl Same for Interface {
    fn same(&self, other: &Interface) -> bool {
        self.kind == other.kind
            && self.mac.same(&other.mac)
            && self.source.same(&other.source)
            && self.model.same(&other.model)
    }
}

impl Same for DeviceDef {
    fn same(&self, other: &DeviceDef) -> bool {
        match self {
            DeviceDef::Disk(it) => match other {
                DeviceDef::Disk(that) => it.same(that),
                _ => false,
            },
            DeviceDef::Interface(it) => match other {
                DeviceDef::Interface(that) => it.same(that),
                _ => false,
            },
        }
    }
}
