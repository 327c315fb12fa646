// Procedures that are for one domain, network or pool.
use types_base::{NoMemory, Text, TryCopy};

/// What is asked of a domain: the procedures of the first program, as in libvirt's
/// `remote_protocol.x`, and those of this project's own program.
pub enum DomainRequest {
    /// `DOMAIN_ATTACH_DEVICE`, 8.
    AttachDevice {
        /// The device's text.
        xml: Text,
    },
    /// `DOMAIN_CREATE`, 9.
    Create,
    /// `DOMAIN_DESTROY`, 12.
    Destroy,
    /// `DOMAIN_DETACH_DEVICE`, 13.
    DetachDevice {
        /// The device's text.
        xml: Text,
    },
    /// `DOMAIN_GET_XML_DESC`, 14.
    GetXmlDesc {
        /// The bit of value 2: the stored definition is wanted.
        flags: u32,
    },
    /// `DOMAIN_GET_AUTOSTART`, 15.
    GetAutostart,
    /// `DOMAIN_GET_INFO`, 16.
    GetInfo,
    /// `DOMAIN_REBOOT`, 27.
    Reboot {
        /// Passed over.
        flags: u32,
    },
    /// `DOMAIN_RESUME`, 28.
    Resume,
    /// `DOMAIN_SET_AUTOSTART`, 29.
    SetAutostart {
        /// 0 for no, 1 for yes.
        autostart: i32,
    },
    /// `DOMAIN_SET_MEMORY`, 31.
    SetMemory {
        /// The memory, in KiB.
        memory: u64,
    },
    /// `DOMAIN_SET_VCPUS`, 32.
    SetVcpus {
        /// The processors.
        vcpus: u32,
    },
    /// `DOMAIN_SHUTDOWN`, 33.
    Shutdown,
    /// `DOMAIN_SUSPEND`, 34.
    Suspend,
    /// `DOMAIN_UNDEFINE`, 35.
    Undefine,
    /// `DOMAIN_CORE_DUMP`, 53.
    CoreDump {
        /// The name of the file.
        to: Text,
        /// Passed over.
        flags: u32,
    },
    /// `DOMAIN_SAVE`, 55.
    Save {
        /// The name of the file.
        to: Text,
    },
    /// `JOB_INFO`, 2 of the second program.
    JobInfo,
    /// `JOB_ABORT`, 3 of the second program.
    JobAbort,
    /// `SNAP_CREATE`, 4 of the second program.
    SnapCreate {
        /// The snapshot's text.
        xml: Text,
    },
    /// `SNAP_LIST`, 5 of the second program.
    SnapList,
    /// `SNAP_PARENT`, 6 of the second program.
    SnapParent {
        /// The snapshot's name.
        snapshot: Text,
    },
    /// `SNAP_DELETE`, 7 of the second program.
    SnapDelete {
        /// The snapshot's name.
        snapshot: Text,
        /// 1 where its children go with it, else 0.
        children: i32,
    },
    /// `SNAP_REVERT`, 8 of the second program.
    SnapRevert {
        /// The snapshot's name.
        snapshot: Text,
    },
    /// `SNAP_XML`, 9 of the second program.
    SnapXml {
        /// The snapshot's name.
        snapshot: Text,
    },
    /// `EVENT_REGISTER`, 10 of the second program.
    EventRegister,
    /// `EVENT_DEREGISTER`, 11 of the second program.
    EventDeregister,
    /// `MEMORY_STATS`, 14 of the second program.
    MemoryStats,
    /// `KICK`, 15 of the second program.
    Kick {
        /// What it does, 1 to 5.
        action: i32,
    },
    /// `MIGRATE_PERFORM`, 50 of the second program.
    MigratePerform,
    /// `MIGRATE_CONFIRM`, 51 of the second program.
    MigrateConfirm {
        /// 1 where the guest goes on at the other host, 0 where it goes on here.
        verdict: i32,
    },
    /// `MIGRATE_FINISH`, 53 of the second program.
    MigrateFinish {
        /// 1 where the guest goes on here, 0 where it is given up.
        go: i32,
    },
    /// `MIGRATE_LIMIT`, 54 of the second program.
    MigrateLimit {
        /// How much of the copy may be left when the guest is stopped, 0 to 2^40.
        rest: u64,
    },
}

impl Drop for DomainRequest {
    fn drop(self) {
        match self {
            DomainRequest::AttachDevice { xml: _ } => {}
            DomainRequest::Create => {}
            DomainRequest::Destroy => {}
            DomainRequest::DetachDevice { xml: _ } => {}
            DomainRequest::GetXmlDesc { flags: _ } => {}
            DomainRequest::GetAutostart => {}
            DomainRequest::GetInfo => {}
            DomainRequest::Reboot { flags: _ } => {}
            DomainRequest::Resume => {}
            DomainRequest::SetAutostart { autostart: _ } => {}
            DomainRequest::SetMemory { memory: _ } => {}
            DomainRequest::SetVcpus { vcpus: _ } => {}
            DomainRequest::Shutdown => {}
            DomainRequest::Suspend => {}
            DomainRequest::Undefine => {}
            DomainRequest::CoreDump { to: _, flags: _ } => {}
            DomainRequest::Save { to: _ } => {}
            DomainRequest::JobInfo => {}
            DomainRequest::JobAbort => {}
            DomainRequest::SnapCreate { xml: _ } => {}
            DomainRequest::SnapList => {}
            DomainRequest::SnapParent { snapshot: _ } => {}
            DomainRequest::SnapDelete {
                snapshot: _,
                children: _,
            } => {}
            DomainRequest::SnapRevert { snapshot: _ } => {}
            DomainRequest::SnapXml { snapshot: _ } => {}
            DomainRequest::EventRegister => {}
            DomainRequest::EventDeregister => {}
            DomainRequest::MemoryStats => {}
            DomainRequest::Kick { action: _ } => {}
            DomainRequest::MigratePerform => {}
            DomainRequest::MigrateConfirm { verdict: _ } => {}
            DomainRequest::MigrateFinish { go: _ } => {}
            DomainRequest::MigrateLimit { rest: _ } => {}
        }
    }
}

impl TryCopy for DomainRequest {
    fn copy(&self) -> Result<DomainRequest, NoMemory> {
        Ok(match self {
            DomainRequest::AttachDevice { xml } => DomainRequest::AttachDevice { xml: xml.copy()? },
            DomainRequest::Create => DomainRequest::Create,
            DomainRequest::Destroy => DomainRequest::Destroy,
            DomainRequest::DetachDevice { xml } => DomainRequest::DetachDevice { xml: xml.copy()? },
            DomainRequest::GetXmlDesc { flags } => DomainRequest::GetXmlDesc { flags: *flags },
            DomainRequest::GetAutostart => DomainRequest::GetAutostart,
            DomainRequest::GetInfo => DomainRequest::GetInfo,
            DomainRequest::Reboot { flags } => DomainRequest::Reboot { flags: *flags },
            DomainRequest::Resume => DomainRequest::Resume,
            DomainRequest::SetAutostart { autostart } => DomainRequest::SetAutostart {
                autostart: *autostart,
            },
            DomainRequest::SetMemory { memory } => DomainRequest::SetMemory { memory: *memory },
            DomainRequest::SetVcpus { vcpus } => DomainRequest::SetVcpus { vcpus: *vcpus },
            DomainRequest::Shutdown => DomainRequest::Shutdown,
            DomainRequest::Suspend => DomainRequest::Suspend,
            DomainRequest::Undefine => DomainRequest::Undefine,
            DomainRequest::CoreDump { to, flags } => DomainRequest::CoreDump {
                to: to.copy()?,
                flags: *flags,
            },
            DomainRequest::Save { to } => DomainRequest::Save { to: to.copy()? },
            DomainRequest::JobInfo => DomainRequest::JobInfo,
            DomainRequest::JobAbort => DomainRequest::JobAbort,
            DomainRequest::SnapCreate { xml } => DomainRequest::SnapCreate { xml: xml.copy()? },
            DomainRequest::SnapList => DomainRequest::SnapList,
            DomainRequest::SnapParent { snapshot } => DomainRequest::SnapParent {
                snapshot: snapshot.copy()?,
            },
            DomainRequest::SnapDelete { snapshot, children } => DomainRequest::SnapDelete {
                snapshot: snapshot.copy()?,
                children: *children,
            },
            DomainRequest::SnapRevert { snapshot } => DomainRequest::SnapRevert {
                snapshot: snapshot.copy()?,
            },
            DomainRequest::SnapXml { snapshot } => DomainRequest::SnapXml {
                snapshot: snapshot.copy()?,
            },
            DomainRequest::EventRegister => DomainRequest::EventRegister,
            DomainRequest::EventDeregister => DomainRequest::EventDeregister,
            DomainRequest::MemoryStats => DomainRequest::MemoryStats,
            DomainRequest::Kick { action } => DomainRequest::Kick { action: *action },
            DomainRequest::MigratePerform => DomainRequest::MigratePerform,
            DomainRequest::MigrateConfirm { verdict } => DomainRequest::MigrateConfirm {
                verdict: *verdict,
            },
            DomainRequest::MigrateFinish { go } => DomainRequest::MigrateFinish { go: *go },
            DomainRequest::MigrateLimit { rest } => DomainRequest::MigrateLimit { rest: *rest },
        })
    }
}

/// What is asked of a network.
#[derive(Clone, Copy, Debug, PartialEq, Eq)]
pub enum NetworkRequest {
    /// `NETWORK_CREATE`, 39.
    Create,
    /// `NETWORK_DESTROY`, 42.
    Destroy,
    /// `NETWORK_GET_XML_DESC`, 43.
    GetXmlDesc {
        /// Passed over.
        flags: u32,
    },
    /// `NETWORK_SET_AUTOSTART`, 48.
    SetAutostart {
        /// 0 for no, 1 for yes.
        autostart: i32,
    },
    /// `NETWORK_UNDEFINE`, 49.
    Undefine,
    /// `LEASES`, 40 of the second program.
    Leases,
}

/// What is asked of a pool or of one of its volumes.
pub enum PoolRequest {
    /// `POOL_CREATE`, 21 of the second program.
    Create,
    /// `POOL_DESTROY`, 22 of the second program.
    Destroy,
    /// `POOL_UNDEFINE`, 23 of the second program.
    Undefine,
    /// `POOL_XML`, 24 of the second program.
    Xml,
    /// `POOL_AUTOSTART`, 27 of the second program.
    SetAutostart {
        /// 0 for no, 1 for yes.
        autostart: i32,
    },
    /// `VOL_CREATE`, 30 of the second program.
    VolCreate {
        /// The volume's text.
        xml: Text,
    },
    /// `VOL_DELETE`, 31 of the second program.
    VolDelete {
        /// The volume's name.
        volume: Text,
    },
    /// `VOL_LIST`, 32 of the second program.
    VolList,
    /// `VOL_XML`, 33 of the second program.
    VolXml {
        /// The volume's name.
        volume: Text,
    },
}

impl Drop for PoolRequest {
    fn drop(self) {
        match self {
            PoolRequest::Create => {}
            PoolRequest::Destroy => {}
            PoolRequest::Undefine => {}
            PoolRequest::Xml => {}
            PoolRequest::SetAutostart { autostart: _ } => {}
            PoolRequest::VolCreate { xml: _ } => {}
            PoolRequest::VolDelete { volume: _ } => {}
            PoolRequest::VolList => {}
            PoolRequest::VolXml { volume: _ } => {}
        }
    }
}

impl TryCopy for PoolRequest {
    fn copy(&self) -> Result<PoolRequest, NoMemory> {
        Ok(match self {
            PoolRequest::Create => PoolRequest::Create,
            PoolRequest::Destroy => PoolRequest::Destroy,
            PoolRequest::Undefine => PoolRequest::Undefine,
            PoolRequest::Xml => PoolRequest::Xml,
            PoolRequest::SetAutostart { autostart } => PoolRequest::SetAutostart {
                autostart: *autostart,
            },
            PoolRequest::VolCreate { xml } => PoolRequest::VolCreate { xml: xml.copy()? },
            PoolRequest::VolDelete { volume } => PoolRequest::VolDelete {
                volume: volume.copy()?,
            },
            PoolRequest::VolList => PoolRequest::VolList,
            PoolRequest::VolXml { volume } => PoolRequest::VolXml {
                volume: volume.copy()?,
            },
        })
    }
}
