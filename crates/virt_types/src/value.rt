// What is answered: values, replies and notes.
use crate::domain::{Live, Snap};
use crate::operation::{OpKind, Phase};
use crate::reference::{DomainRef, NetworkRef, PoolRef};
use crate::run_state::DomainState;
use types_base::{
    Boxed, Bytes, DomainDef, ListOf, Mac, Name, NoMemory, Refusal, RoomyList, Text, Transition,
    TryCopy,
};
use uuid::Uuid;

/// Names in order.
pub type NameList = ListOf<Name>;

/// Texts in order.
pub type TextList = ListOf<Text>;

/// Transitions in order, with room for more.
pub type TransitionList = RoomyList<Transition>;

/// A domain with its state.
pub struct DomainRow {
    /// The domain.
    pub domain: DomainRef,
    /// Its state.
    pub state: DomainState,
}

impl Drop for DomainRow {
    fn drop(self) {
        let DomainRow {
            domain: _,
            state: _,
        } = self;
    }
}

impl TryCopy for DomainRow {
    fn copy(&self) -> Result<DomainRow, NoMemory> {
        Ok(DomainRow {
            domain: self.domain.copy()?,
            state: self.state,
        })
    }
}

/// Domains with their states, in order.
pub type DomainRowList = ListOf<DomainRow>;

/// A pool, and whether it is active.
#[derive(Drop)]
pub struct PoolRow {
    /// Its name.
    pub name: Name,
    /// Its identifier.
    pub uuid: Uuid,
    /// Whether it is active.
    pub active: bool,
}

impl TryCopy for PoolRow {
    fn copy(&self) -> Result<PoolRow, NoMemory> {
        Ok(PoolRow {
            name: self.name.copy()?,
            uuid: self.uuid,
            active: self.active,
        })
    }
}

/// Pools in order.
pub type PoolRowList = ListOf<PoolRow>;

/// A lease.
#[derive(Clone, Copy, Debug, PartialEq, Eq)]
pub struct LeaseRow {
    /// The interface that has it.
    pub mac: Mac,
    /// An IPv4 address as a number, its first byte the highest.
    pub address: u32,
}

impl TryCopy for LeaseRow {
    fn copy(&self) -> Result<LeaseRow, NoMemory> {
        Ok(*self)
    }
}

/// Leases in order.
pub type LeaseRowList = ListOf<LeaseRow>;

/// A domain and the title of its stored definition.
#[derive(Drop)]
pub struct TitleRow {
    /// The domain's name.
    pub name: Name,
    /// The title, cut to the whole characters within its first 1,024 bytes; empty where it has none.
    pub title: Text,
}

impl TryCopy for TitleRow {
    fn copy(&self) -> Result<TitleRow, NoMemory> {
        Ok(TitleRow {
            name: self.name.copy()?,
            title: self.title.copy()?,
        })
    }
}

/// Domains with their titles, in order.
pub type TitleRowList = ListOf<TitleRow>;

/// What a domain has (`remote_domain_get_info_ret`). The processor time is always given as 0.
#[derive(Clone, Copy, Debug, PartialEq, Eq)]
pub struct DomainInfo {
    /// Its state.
    pub state: DomainState,
    /// The most memory that it may get, in KiB.
    pub memory: u64,
    /// The memory that it has, in KiB.
    pub current: u64,
    /// The processors that it has.
    pub vcpus: u32,
}

impl TryCopy for DomainInfo {
    fn copy(&self) -> Result<DomainInfo, NoMemory> {
        Ok(*self)
    }
}

/// The operation that is under way on a domain.
#[derive(Clone, Copy, Debug, PartialEq, Eq)]
pub struct JobInfo {
    /// Its kind; none where no operation is under way.
    pub kind: Option<OpKind>,
    /// The phase that is due or under way.
    pub phase: Phase,
    /// How much of a copy is left; 0 before the first poll.
    pub rest: u64,
}

/// A guest that leaves for another host, as its cell gives it.
pub struct MigratedGuest {
    /// The definition that the guest had.
    pub definition: DomainDef,
    /// Whether the guest ran.
    pub running: bool,
    /// The state of the guest.
    pub state: Bytes,
}

impl Drop for MigratedGuest {
    fn drop(self) {
        let MigratedGuest {
            definition: _,
            running: _,
            state: _,
        } = self;
    }
}

impl TryCopy for MigratedGuest {
    fn copy(&self) -> Result<MigratedGuest, NoMemory> {
        Ok(MigratedGuest {
            definition: self.definition.copy()?,
            running: self.running,
            state: self.state.copy()?,
        })
    }
}

/// A guest that leaves for another host, as the reply has it.
pub struct MigratedText {
    /// The text of the definition that the guest had.
    pub definition: Text,
    /// Whether the guest ran.
    pub running: bool,
    /// The state of the guest.
    pub state: Bytes,
}

impl Drop for MigratedText {
    fn drop(self) {
        let MigratedText {
            definition: _,
            running: _,
            state: _,
        } = self;
    }
}

impl TryCopy for MigratedText {
    fn copy(&self) -> Result<MigratedText, NoMemory> {
        Ok(MigratedText {
            definition: self.definition.copy()?,
            running: self.running,
            state: self.state.copy()?,
        })
    }
}

/// What a call or a query that was done gives. The last five are what calls and queries read of a
/// domain's cell, of which the driver makes rows and texts; no reply on the wire has them. What is
/// large is boxed, so that a value takes 32 bytes.
pub enum Value {
    /// Nothing.
    Nothing,
    /// A domain.
    Domain(Boxed<DomainRef>),
    /// A network.
    Network(Boxed<NetworkRef>),
    /// A pool.
    Pool(Boxed<PoolRef>),
    /// The text of a definition.
    Text(Text),
    /// Whether the daemon starts it when it starts itself.
    Autostart(bool),
    /// What a domain has.
    Info(Boxed<DomainInfo>),
    /// Names, by rising name.
    Names(NameList),
    /// All domains.
    Domains(DomainRowList),
    /// All pools, by rising name.
    Pools(PoolRowList),
    /// The operation under way.
    Job(JobInfo),
    /// The name of a snapshot or volume that was made.
    Name(Name),
    /// The parent of a snapshot.
    Parent(Boxed<Option<Name>>),
    /// How much memory a guest has, in KiB.
    Memory(u64),
    /// The leases of a network, by rising address.
    Leases(LeaseRowList),
    /// All domains with their titles, by rising name.
    Titles(TitleRowList),
    /// A guest that leaves for another host.
    MigratedText(Boxed<MigratedText>),
    /// How the wire refers to a domain, and its state.
    Reference(Boxed<DomainRow>),
    /// A definition.
    Definition(Boxed<DomainDef>),
    /// The live part of a domain.
    Live(Boxed<Live>),
    /// A snapshot.
    Snapshot(Boxed<Snap>),
    /// A guest that leaves for another host.
    MigratedGuest(Boxed<MigratedGuest>),
}

impl Drop for Value {
    fn drop(self) {
        match self {
            Value::Nothing => {}
            Value::Domain(_) => {}
            Value::Network(_) => {}
            Value::Pool(_) => {}
            Value::Text(_) => {}
            Value::Autostart(_) => {}
            Value::Info(_) => {}
            Value::Names(_) => {}
            Value::Domains(_) => {}
            Value::Pools(_) => {}
            Value::Job(_) => {}
            Value::Name(_) => {}
            Value::Parent(_) => {}
            Value::Memory(_) => {}
            Value::Leases(_) => {}
            Value::Titles(_) => {}
            Value::MigratedText(_) => {}
            Value::Reference(_) => {}
            Value::Definition(_) => {}
            Value::Live(_) => {}
            Value::Snapshot(_) => {}
            Value::MigratedGuest(_) => {}
        }
    }
}

impl TryCopy for Value {
    fn copy(&self) -> Result<Value, NoMemory> {
        Ok(match self {
            Value::Nothing => Value::Nothing,
            Value::Domain(it) => Value::Domain(it.copy()?),
            Value::Network(it) => Value::Network(it.copy()?),
            Value::Pool(it) => Value::Pool(it.copy()?),
            Value::Text(it) => Value::Text(it.copy()?),
            Value::Autostart(it) => Value::Autostart(*it),
            Value::Info(it) => Value::Info(it.copy()?),
            Value::Names(it) => Value::Names(it.copy()?),
            Value::Domains(it) => Value::Domains(it.copy()?),
            Value::Pools(it) => Value::Pools(it.copy()?),
            Value::Job(it) => Value::Job(*it),
            Value::Name(it) => Value::Name(it.copy()?),
            Value::Parent(it) => Value::Parent(it.copy()?),
            Value::Memory(it) => Value::Memory(*it),
            Value::Leases(it) => Value::Leases(it.copy()?),
            Value::Titles(it) => Value::Titles(it.copy()?),
            Value::MigratedText(it) => Value::MigratedText(it.copy()?),
            Value::Reference(it) => Value::Reference(it.copy()?),
            Value::Definition(it) => Value::Definition(it.copy()?),
            Value::Live(it) => Value::Live(it.copy()?),
            Value::Snapshot(it) => Value::Snapshot(it.copy()?),
            Value::MigratedGuest(it) => Value::MigratedGuest(it.copy()?),
        })
    }
}

/// What a call is answered.
pub enum Reply {
    /// It was done.
    Ok(Value),
    /// It was not done.
    No(Refusal),
}

impl Drop for Reply {
    fn drop(self) {
        match self {
            Reply::Ok(_) => {}
            Reply::No(_) => {}
        }
    }
}

impl TryCopy for Reply {
    fn copy(&self) -> Result<Reply, NoMemory> {
        Ok(match self {
            Reply::Ok(it) => Reply::Ok(it.copy()?),
            Reply::No(it) => Reply::No(it.copy()?),
        })
    }
}

/// A message that no call asked for.
pub enum Note {
    /// Something came about in a domain.
    Event {
        /// The domain's name.
        name: Name,
        /// Its identifier.
        uuid: Uuid,
        /// What came about.
        transition: Transition,
    },
    /// More came about in a domain than one registration keeps, and the registration has ended.
    Lost {
        /// The domain's name.
        name: Name,
        /// Its identifier.
        uuid: Uuid,
    },
}

impl Drop for Note {
    fn drop(self) {
        match self {
            Note::Event {
                name: _,
                uuid: _,
                transition: _,
            } => {}
            Note::Lost { name: _, uuid: _ } => {}
        }
    }
}

impl TryCopy for Note {
    fn copy(&self) -> Result<Note, NoMemory> {
        Ok(match self {
            Note::Event {
                name,
                uuid,
                transition,
            } => Note::Event {
                name: name.copy()?,
                uuid: *uuid,
                transition: *transition,
            },
            Note::Lost { name, uuid } => Note::Lost {
                name: name.copy()?,
                uuid: *uuid,
            },
        })
    }
}

/// Notes in order.
pub type NoteList = ListOf<Note>;
