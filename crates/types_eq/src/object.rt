// Definitions of networks, pools and volumes.
use crate::parts::Same;
use virt_types::{
    AddressRange, Dhcp, ForwardMode, HostLine, NetDef, NetIp, PoolDef, PoolType, VolDef,
};

impl Same for ForwardMode {
    fn same(&self, other: &ForwardMode) -> bool {
        *self == *other
    }
}

impl Same for AddressRange {
    fn same(&self, other: &AddressRange) -> bool {
        *self == *other
    }
}

impl Same for HostLine {
    fn same(&self, other: &HostLine) -> bool {
        *self == *other
    }
}

impl Same for PoolType {
    fn same(&self, other: &PoolType) -> bool {
        *self == *other
    }
}

impl Same for Dhcp {
    fn same(&self, other: &Dhcp) -> bool {
        self.range.same(&other.range) && self.hosts.same(&other.hosts)
    }
}

impl Same for NetIp {
    fn same(&self, other: &NetIp) -> bool {
        self.address.same(&other.address)
            && self.prefix.same(&other.prefix)
            && self.dhcp.same(&other.dhcp)
    }
}

impl Same for NetDef {
    fn same(&self, other: &NetDef) -> bool {
        self.name.same(&other.name)
            && self.uuid.same(&other.uuid)
            && self.forward.same(&other.forward)
            && self.bridge.same(&other.bridge)
            && self.ip.same(&other.ip)
    }
}

impl Same for PoolDef {
    fn same(&self, other: &PoolDef) -> bool {
        self.kind.same(&other.kind)
            && self.name.same(&other.name)
            && self.uuid.same(&other.uuid)
            && self.capacity.same(&other.capacity)
            && self.path.same(&other.path)
    }
}

impl Same for VolDef {
    fn same(&self, other: &VolDef) -> bool {
        self.name.same(&other.name)
            && self.capacity.same(&other.capacity)
            && self.allocation.same(&other.allocation)
            && self.format.same(&other.format)
    }
}
