// What is asked of a domain's cell: calls, which leave marks, and queries, which read.
use crate::domain::SnapInfo;
use types_base::{Boxed, Bytes, DeviceDef, DomainDef, Name, NoMemory, TryCopy, both};

/// A call on a domain's cell. The last nine begin an operation, and `Confirm` and `Finish` take up one
/// that rests. What is large is boxed, so that a call takes 32 bytes.
pub enum Call {
    /// The guest is to pause.
    Suspend,
    /// The guest is to go on.
    Resume,
    /// The guest is asked to shut down.
    Shutdown,
    /// The guest is reset.
    Reboot,
    /// The guest is ended at once.
    Destroy,
    /// This becomes the stored definition.
    Define(Boxed<DomainDef>),
    /// The stored definition is removed.
    Undefine,
    /// Whether the daemon starts the domain when it starts itself.
    SetAutostart(bool),
    /// The memory that the guest has, in KiB.
    SetMemory(u64),
    /// The processors that the guest has.
    SetVcpus(u32),
    /// The guest gets this device.
    Attach(Boxed<DeviceDef>),
    /// The guest loses the device with the key of this one: a disk's target, an interface's MAC.
    Detach(Boxed<DeviceDef>),
    /// How much memory the guest has.
    MemoryStats,
    /// The guest does something of its own: 1 shuts down, 2 panics, 3 crashes, 4 stops, 5 goes on.
    Kick(i32),
    /// The operation under way is to be given up.
    Abort,
    /// A snapshot is removed.
    SnapDelete {
        /// Which one.
        name: Boxed<Name>,
        /// Whether its children go with it. Else they take its parent.
        children: bool,
    },
    /// How much of the copy may be left when a guest that goes to another host is stopped.
    Limit(u64),
    /// A guest that left goes on at the other host, or, where this is false, here.
    Confirm(bool),
    /// A guest that came from another host goes on here, or, where this is false, is given up.
    Finish(bool),
    /// A guest is started of the stored definition.
    Start,
    /// A guest is started of this definition, in a vacant cell.
    Create(Boxed<DomainDef>),
    /// A guest is started from a saved state.
    Restore {
        /// The definition that the guest had.
        definition: Boxed<DomainDef>,
        /// Whether the guest ran.
        running: bool,
        /// The state of the guest.
        saved: Boxed<Bytes>,
    },
    /// The guest's state is saved under this name, and the guest ends.
    Save(Name),
    /// The guest's state is written under this name.
    Dump(Name),
    /// A snapshot is taken.
    Snapshot(Boxed<SnapInfo>),
    /// The snapshot of this name is gone back to.
    Revert(Name),
    /// The guest is made ready to go on at another host, and rests.
    Perform,
    /// A guest of another host is made here, and rests.
    Prepare {
        /// The definition that the guest had there.
        definition: Boxed<DomainDef>,
        /// Whether the guest ran.
        running: bool,
        /// The state of the guest.
        saved: Boxed<Bytes>,
    },
}

impl Drop for Call {
    fn drop(self) {
        match self {
            Call::Suspend => {}
            Call::Resume => {}
            Call::Shutdown => {}
            Call::Reboot => {}
            Call::Destroy => {}
            Call::Define(_) => {}
            Call::Undefine => {}
            Call::SetAutostart(_) => {}
            Call::SetMemory(_) => {}
            Call::SetVcpus(_) => {}
            Call::Attach(_) => {}
            Call::Detach(_) => {}
            Call::MemoryStats => {}
            Call::Kick(_) => {}
            Call::Abort => {}
            Call::SnapDelete {
                name: _,
                children: _,
            } => {}
            Call::Limit(_) => {}
            Call::Confirm(_) => {}
            Call::Finish(_) => {}
            Call::Start => {}
            Call::Create(_) => {}
            Call::Restore {
                definition: _,
                running: _,
                saved: _,
            } => {}
            Call::Save(_) => {}
            Call::Dump(_) => {}
            Call::Snapshot(_) => {}
            Call::Revert(_) => {}
            Call::Perform => {}
            Call::Prepare {
                definition: _,
                running: _,
                saved: _,
            } => {}
        }
    }
}

impl TryCopy for Call {
    fn copy(&self) -> Result<Call, NoMemory> {
        Ok(match self {
            Call::Suspend => Call::Suspend,
            Call::Resume => Call::Resume,
            Call::Shutdown => Call::Shutdown,
            Call::Reboot => Call::Reboot,
            Call::Destroy => Call::Destroy,
            Call::Define(it) => Call::Define(it.copy()?),
            Call::Undefine => Call::Undefine,
            Call::SetAutostart(it) => Call::SetAutostart(*it),
            Call::SetMemory(it) => Call::SetMemory(*it),
            Call::SetVcpus(it) => Call::SetVcpus(*it),
            Call::Attach(it) => Call::Attach(it.copy()?),
            Call::Detach(it) => Call::Detach(it.copy()?),
            Call::MemoryStats => Call::MemoryStats,
            Call::Kick(it) => Call::Kick(*it),
            Call::Abort => Call::Abort,
            Call::SnapDelete { name, children } => Call::SnapDelete {
                name: name.copy()?,
                children: *children,
            },
            Call::Limit(it) => Call::Limit(*it),
            Call::Confirm(it) => Call::Confirm(*it),
            Call::Finish(it) => Call::Finish(*it),
            Call::Start => Call::Start,
            Call::Create(it) => Call::Create(it.copy()?),
            Call::Restore {
                definition,
                running,
                saved,
            } => {
                let (definition, saved) = both(definition.copy(), saved.copy())?;
                Call::Restore {
                    definition,
                    running: *running,
                    saved,
                }
            }
            Call::Save(it) => Call::Save(it.copy()?),
            Call::Dump(it) => Call::Dump(it.copy()?),
            Call::Snapshot(it) => Call::Snapshot(it.copy()?),
            Call::Revert(it) => Call::Revert(it.copy()?),
            Call::Perform => Call::Perform,
            Call::Prepare {
                definition,
                running,
                saved,
            } => {
                let (definition, saved) = both(definition.copy(), saved.copy())?;
                Call::Prepare {
                    definition,
                    running: *running,
                    saved,
                }
            }
        })
    }
}

/// What is read of a domain's cell.
pub enum Query {
    /// How the wire refers to the domain, and its state.
    Reference,
    /// A definition.
    Text {
        /// Whether the stored one is wanted even where the domain is active.
        stored: bool,
    },
    /// Whether the daemon starts the domain when it starts itself.
    Autostart,
    /// Its state, memory and processors.
    Info,
    /// The operation under way.
    JobInfo,
    /// The names of its snapshots.
    SnapNames,
    /// The parent of the snapshot of this name.
    SnapParent(Name),
    /// The snapshot of this name.
    SnapText(Name),
}

impl Drop for Query {
    fn drop(self) {
        match self {
            Query::Reference => {}
            Query::Text { stored: _ } => {}
            Query::Autostart => {}
            Query::Info => {}
            Query::JobInfo => {}
            Query::SnapNames => {}
            Query::SnapParent(_) => {}
            Query::SnapText(_) => {}
        }
    }
}

impl TryCopy for Query {
    fn copy(&self) -> Result<Query, NoMemory> {
        Ok(match self {
            Query::Reference => Query::Reference,
            Query::Text { stored } => Query::Text { stored: *stored },
            Query::Autostart => Query::Autostart,
            Query::Info => Query::Info,
            Query::JobInfo => Query::JobInfo,
            Query::SnapNames => Query::SnapNames,
            Query::SnapParent(it) => Query::SnapParent(it.copy()?),
            Query::SnapText(it) => Query::SnapText(it.copy()?),
        })
    }
}
