// The names that the element tables speak of.

/// An element of libvirt's formats that a table names.
#[derive(Clone, Copy, Debug, PartialEq, Eq)]
pub enum ElementName {
    /// `domain`.
    Domain,
    /// `name`.
    Name,
    /// `uuid`.
    Uuid,
    /// `title`.
    Title,
    /// `description`.
    Description,
    /// `metadata`.
    Metadata,
    /// `guest`.
    Guest,
    /// `memory`.
    Memory,
    /// `currentMemory`.
    CurrentMemory,
    /// `vcpu`.
    Vcpu,
    /// `os`.
    Os,
    /// `type`.
    Type,
    /// `boot`.
    Boot,
    /// `on_poweroff`.
    OnPoweroff,
    /// `on_reboot`.
    OnReboot,
    /// `on_crash`.
    OnCrash,
    /// `devices`.
    Devices,
    /// `emulator`.
    Emulator,
    /// `disk`.
    Disk,
    /// `interface`.
    Interface,
    /// `serial`.
    Serial,
    /// `console`.
    Console,
    /// `graphics`.
    Graphics,
    /// `memballoon`.
    Memballoon,
    /// `driver`.
    Driver,
    /// `source`.
    Source,
    /// `target`.
    Target,
    /// `readonly`.
    Readonly,
    /// `mac`.
    Mac,
    /// `model`.
    Model,
}

/// An attribute that a table names.
#[derive(Clone, Copy, Debug, PartialEq, Eq)]
pub enum AttributeName {
    /// `type`.
    Type,
    /// `unit`.
    Unit,
    /// `current`.
    Current,
    /// `arch`.
    Arch,
    /// `machine`.
    Machine,
    /// `dev`.
    Dev,
    /// `device`.
    Device,
    /// `name`.
    Name,
    /// `file`.
    File,
    /// `pool`.
    Pool,
    /// `volume`.
    Volume,
    /// `bus`.
    Bus,
    /// `address`.
    Address,
    /// `network`.
    Network,
    /// `bridge`.
    Bridge,
    /// `port`.
    Port,
    /// `model`.
    Model,
}
