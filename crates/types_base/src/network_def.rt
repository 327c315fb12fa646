// The definition of a network, with one field for each row of its element table.
use crate::copy::TryCopy;
use crate::list::ListOf;
use crate::mac::Mac;
use crate::memory::NoMemory;
use crate::name::Name;
use crate::text::Text;
use uuid::Uuid;

/// How a network reaches others: the attribute `mode` of `forward`. An isolated one has none.
#[derive(Clone, Copy, Debug, PartialEq, Eq)]
pub enum ForwardMode {
    /// `nat`.
    Nat,
    /// `route`.
    Route,
}

/// `range`: the addresses that are leased. Each is an IPv4 address as a number, its first byte the
/// highest.
#[derive(Clone, Copy, Debug, PartialEq, Eq)]
pub struct AddressRange {
    /// The attribute `start`: the first address.
    pub start: u32,
    /// The attribute `end`: the last address, not below the first.
    pub end: u32,
}

/// `host`: the address that one interface gets.
#[derive(Clone, Copy, Debug, PartialEq, Eq)]
pub struct HostLine {
    /// The attribute `mac`.
    pub mac: Mac,
    /// The attribute `ip`: an IPv4 address as a number, its first byte the highest.
    pub address: u32,
}

impl TryCopy for HostLine {
    fn copy(&self) -> Result<HostLine, NoMemory> {
        Ok(*self)
    }
}

/// Elements `host` in order.
pub type HostLineList = ListOf<HostLine>;

/// `dhcp`: which addresses are leased.
#[derive(Drop)]
pub struct Dhcp {
    /// The element `range`.
    pub range: Option<AddressRange>,
    /// The elements `host`.
    pub hosts: HostLineList,
}

impl TryCopy for Dhcp {
    fn copy(&self) -> Result<Dhcp, NoMemory> {
        Ok(Dhcp {
            range: self.range,
            hosts: self.hosts.copy()?,
        })
    }
}

/// `ip`: the addresses of a network.
#[derive(Drop)]
pub struct NetIp {
    /// The attribute `address`: an IPv4 address as a number, its first byte the highest.
    pub address: u32,
    /// How many leading bits all addresses of the network share, 1 to 30. It is printed as the
    /// attribute `netmask`.
    pub prefix: u32,
    /// The element `dhcp`.
    pub dhcp: Option<Dhcp>,
}

impl TryCopy for NetIp {
    fn copy(&self) -> Result<NetIp, NoMemory> {
        Ok(NetIp {
            address: self.address,
            prefix: self.prefix,
            dhcp: self.dhcp.copy()?,
        })
    }
}

/// The definition of a network (libvirt's network XML format, in this project's profile).
#[derive(Drop)]
pub struct NetDef {
    /// `name`.
    pub name: Name,
    /// `uuid`; none before it is filled in.
    pub uuid: Option<Uuid>,
    /// `forward` with `mode`.
    pub forward: Option<ForwardMode>,
    /// `bridge` with `name`.
    pub bridge: Option<Text>,
    /// `ip`.
    pub ip: Option<NetIp>,
}

impl TryCopy for NetDef {
    fn copy(&self) -> Result<NetDef, NoMemory> {
        Ok(NetDef {
            name: self.name.copy()?,
            uuid: self.uuid,
            forward: self.forward,
            bridge: self.bridge.copy()?,
            ip: self.ip.copy()?,
        })
    }
}
