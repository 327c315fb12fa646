//! What the words of the system are made of: names, texts, bytes, lists, refusals; and the definitions of domains, networks and pools.
#![tactic(auto)]

// Types that hold memory have a written `Drop` and not a derived one: so a proof meets one call where a
// value is let go, and not a walk over its fields and variants.

mod boxed;
mod bytes;
mod caller;
mod copy;
mod device_def;
mod domain_def;
mod limits;
mod list;
mod mac;
mod memory;
mod name;
mod network_def;
mod outside;
mod refusal;
mod room;
mod script;
mod storage_def;
mod text;
mod transition;

pub use boxed::Boxed;
pub use bytes::Bytes;
pub use caller::{CellName, Front, Who};
pub use copy::{TryCopy, both};
pub use device_def::{
    DeviceDef, Disk, DiskDevice, DiskDriver, DiskList, DiskSource, DiskTarget, DiskType, Interface,
    InterfaceList, InterfaceModel, InterfaceSource, InterfaceType,
};
pub use domain_def::{
    BootDevice, BootDeviceList, CharacterDevice, CharacterDeviceList, CrashAction, DomainDef,
    DomainType, Graphics, GraphicsList, LifecycleAction, Memballoon, Os,
};
pub use limits::{MOST_DOMAINS, MOST_KEPT_BYTES, MOST_STATE_BYTES, MOST_TEXT_BYTES};
pub use list::ListOf;
pub use mac::Mac;
pub use memory::{Failed, Fault, NoMemory, OrNoMemory};
pub use name::{BadName, Name};
pub use network_def::{AddressRange, Dhcp, ForwardMode, HostLine, HostLineList, NetDef, NetIp};
pub use outside::{Gate, Random};
pub use refusal::{Refusal, RefusalCode, kept_length};
pub use room::RoomyList;
pub use script::{Script, ScriptAct, ScriptEntry, ScriptEntryList};
pub use storage_def::{PoolDef, PoolType, VolDef};
pub use text::Text;
pub use transition::{
    CRASHED_PANICKED, DEFINED_ADDED, DEFINED_UPDATED, RESUMED_UNPAUSED, SHUTDOWN_FINISHED,
    STARTED_BOOTED, STARTED_FROM_SNAPSHOT, STARTED_MIGRATED, STARTED_RESTORED, STOPPED_CRASHED,
    STOPPED_DESTROYED, STOPPED_FAILED, STOPPED_FROM_SNAPSHOT, STOPPED_MIGRATED, STOPPED_SAVED,
    STOPPED_SHUTDOWN, SUSPENDED_PAUSED, Transition, UNDEFINED_REMOVED, transition_numbers,
};
pub use uuid::Uuid;
